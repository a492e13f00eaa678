// Exact, place, range and width of a question by the plain rule, asked of a book whose entries are judged, by going through them in
// order. No node table is looked at and no name is rebuilt: what the question shares with a name is counted on from what it shares with
// the name before it. The names rise, so a walk stops at the place, or behind the names that begin with the question.
#![tactic(auto)]

ghost use Rattle.std.specs.Prelude.{◌≡◌, eqb, length};
ghost use Rattle.words.specs.Words.{plain, word};
ghost use Rattle.format.specs.Spans.{words_of};
ghost use Rattle.answers.specs.Questions.{exact, place, range};
ghost use Rattle.answers.specs.Widths.{width};
ghost use Rattle.sweep.specs.Sweep.{RangeSays, SeatSays, StepAsk, SweepAsk, WidenAsk, less_on, shared_on};

use symbols::Rule;

// How many symbols a name and the question share, and whether the name is less. Both hold of every name: neither says whether the other counts.
#[derive(Clone, Copy)]
pub struct Met {
    pub shared: usize,
    pub less: bool,
}

// A name, by its entry: where that stands, how many symbols the name and the question share, and the name's length.
#[derive(Clone, Copy)]
pub struct Found {
    pub at: usize,
    pub shared: usize,
    pub len: usize,
}

// The question's place; where the entry that has it stands, or where the entries end; and the name that has it, where one does.
#[derive(Clone, Copy)]
pub struct Seat {
    pub place: usize,
    pub at: usize,
    pub name: Option<Found>,
}

// The question's place, how many names begin with it, and the greatest length of these.
#[derive(Clone, Copy)]
pub struct Range {
    pub place: usize,
    pub names: usize,
    pub widest: usize,
}

// From the name before, which shares m symbols with the question, to the name of the entry at `at`. Where it has more than m from that
// name, it shares as much, and is less where that one is.
fn step(book: &[u8], at: usize, question: &[u8], m: usize) -> Met
    requires { StepAsk book.now at question.now m }
    ensures shared_value { result.shared ≡ shared_on book.now at question.now m }
    ensures less_value { result.less ≡ less_on book.now at question.now m }
{
    let c = usize::from(book[at]);
    if m < c {
        return Met {
            shared: m,
            less: true,
        };
    }
    let from = at + 2;
    let end = neighbours::next_entry(book, at);
    let rest = &book[from..end];
    let left = &question[c..];
    let shared = symbols::shared_symbols(Rule::Plain, rest, left);
    let less = symbols::is_above(Rule::Plain, rest, left, shared);
    Met {
        shared: c + shared,
        less,
    }
}

// The place of the question among n names: the number of the first that is not less.
pub fn place_of(book: &[u8], n: usize, question: &[u8]) -> Seat
    requires { SweepAsk book.now n }
    ensures { SeatSays book.now question.now result }
{
    let mut at: usize = 0;
    let mut m: usize = 0;
    for i in 0..n {
        let met = step(book, at, question, m);
        m = met.shared;
        if !met.less {
            return Seat {
                place: i,
                at,
                name: Some(Found {
                    at,
                    shared: m,
                    len: neighbours::length_of(book, at),
                }),
            };
        }
        at = neighbours::next_entry(book, at);
    }
    Seat {
        place: n,
        at,
        name: None,
    }
}

// Whether the name of the entry at `at` begins with the question, where the name before it does: it shares all of it.
fn is_begun(book: &[u8], at: usize, question: &[u8]) -> bool
    requires { StepAsk book.now at question.now (length question.now) }
    ensures { result ≡ eqb (shared_on book.now at question.now (length question.now)) (length question.now) }
{
    step(book, at, question, question.len()).shared == question.len()
}

// How many names begin with the question, and the greatest length of these, where the name at its place does.
fn widen(book: &[u8], n: usize, question: &[u8], place: usize, name: Found) -> Range
    requires { WidenAsk book.now n question.now place name }
    ensures { RangeSays book.now question.now result.place result.names result.widest }
{
    let mut at = neighbours::next_entry(book, name.at);
    let mut widest = name.len;
    for i in place + 1..n {
        if !is_begun(book, at, question) {
            return Range {
                place,
                names: i - place,
                widest,
            };
        }
        widest = widest.max(neighbours::length_of(book, at));
        at = neighbours::next_entry(book, at);
    }
    Range {
        place,
        names: n - place,
        widest,
    }
}

// The names that begin with the question stand from its place on.
pub fn range_of(book: &[u8], n: usize, question: &[u8]) -> Range
    requires { SweepAsk book.now n }
    ensures { RangeSays book.now question.now result.place result.names result.widest }
{
    let seat = place_of(book, n, question);
    match seat.name {
        Some(name) if name.shared == question.len() => widen(book, n, question, seat.place, name),
        _ => Range {
            place: seat.place,
            names: 0,
            widest: 0,
        },
    }
}

// (position, 1) where a name equals the question, else (0, 0): it stands at the question's place.
pub fn ask_exact(book: &[u8], n: usize, question: &[u8]) -> (usize, usize)
    requires { SweepAsk book.now n }
    ensures { result ≡ exact (word plain question.now) (words_of plain book.now) }
{
    let seat = place_of(book, n, question);
    match seat.name {
        Some(name) if name.shared == question.len() && name.len == question.len() => (
            seat.place, 1,
        ),
        _ => (0, 0),
    }
}

// (how many names are less, 0).
pub fn ask_place(book: &[u8], n: usize, question: &[u8]) -> (usize, usize)
    requires { SweepAsk book.now n }
    ensures { result ≡ (place (word plain question.now) (words_of plain book.now), 0) }
{
    (place_of(book, n, question).place, 0)
}

// (the question's place, how many names begin with it).
pub fn ask_range(book: &[u8], n: usize, question: &[u8]) -> (usize, usize)
    requires { SweepAsk book.now n }
    ensures { result ≡ range (word plain question.now) (words_of plain book.now) }
{
    let found = range_of(book, n, question);
    (found.place, found.names)
}

// (the greatest length of the names that begin with the question, 0).
pub fn ask_width(book: &[u8], n: usize, question: &[u8]) -> (usize, usize)
    requires { SweepAsk book.now n }
    ensures { result ≡ (width (word plain question.now) (words_of plain book.now), 0) }
{
    let found = range_of(book, n, question);
    (found.widest, 0)
}
