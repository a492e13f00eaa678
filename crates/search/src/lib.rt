// The five questions, asked of a book that the check has accepted: what was found in its node table (crate `spots`) gives the numbers of
// each. A node is told by the offset of its first number.
#![tactic(auto)]

ghost use Rattle.std.specs.Prelude.{MatchOption, ◌<◌, ◌≡◌, ◌≤◌};
ghost use Rattle.format.specs.Spans.{words_in};
ghost use Rattle.answers.specs.Questions.{ask, exact, nearest, place, range};
ghost use Rattle.answers.specs.Widths.{last_kind, width};
ghost use Rattle.descent.specs.Vocabulary.{asked_in};
ghost use Rattle.paths.specs.Paths.{own_map};
ghost use Rattle.spots.specs.Spots.{AtSpot, Looked};
ghost use Rattle.search.specs.Asks.{AnswerAsk, number_of, pair_of, reply_of};

use fields::Table;
use spots::{Met, Spot};

// The five kinds of question.
#[derive(Clone, Copy, PartialEq, Eq)]
pub enum Asked {
    Exact,
    Place,
    Range,
    Nearest,
    Width,
}

impl Asked {
    // The kind with a number, 1 to 5 in this order. Other numbers are no kind's.
    pub fn from_number(number: usize) -> Option<Asked>
        ensures { MatchOption result (1 ≤ number → last_kind < number) (λ kind. number_of kind ≡ number) }
    {
        match number {
            1 => Some(Asked::Exact),
            2 => Some(Asked::Place),
            3 => Some(Asked::Range),
            4 => Some(Asked::Nearest),
            5 => Some(Asked::Width),
            _ => None,
        }
    }
}

// An answer's two numbers, and how far the search looked.
#[derive(Clone, Copy)]
pub struct Reply {
    pub first: usize,
    pub second: usize,
    pub visits: usize,
    pub entries: usize,
}

impl Reply {
    // These two numbers, where that name was reached.
    fn of(met: Met, first: usize, second: usize) -> Reply
        ensures { result ≡ reply_of met first second }
    {
        Reply {
            first,
            second,
            visits: met.visits,
            entries: met.entries,
        }
    }
}

// How many names are less than the question, once that node is known. Inside its edge the whole group lies to one side; at its fork the
// question stands before the first child whose symbol is not below its own, or behind the group.
fn seat(table: Table<'_>, question: &[u8], spot: Spot) -> usize
    requires { AtSpot table.book.now (own_map table) question.now spot.node spot.met.shared spot.met.symbol }
    ensures { result ≡ place (asked_in table.entry.book.now question.now) (words_in table.entry.book.now) }
{
    let o = spot.node;
    let shared = spot.met.shared;
    let s = symbols::symbol_at(trailer::rule(table.book), question, 0, shared);
    let first = table.first(o);
    let past = first + table.names(o);
    if shared < table.depth(o) {
        if spot.met.symbol < s {
            return past;
        }
        return first;
    }
    let end = o + table.nodes(o) * table.stride;
    let c = paths::seek(table, table.part(fields::NODES), o, end, s);
    if c < end {
        return table.first(c);
    }
    past
}

// (position, 1) where a name equals the question, else (0, 0). It stays a function, and makes its table itself: what it keeps would else lie
// below every level of the check before it (DECISIONS 193).
#[inline(never)]
fn ask_exact(book: &[u8], question: &[u8]) -> Reply
    requires { AnswerAsk book.now }
    ensures result_value { pair_of result ≡ exact (asked_in book.now question.now) (words_in book.now) }
    ensures looked { Looked book.now question.now result.visits result.entries }
{
    let table = trailer::table_of(book);
    let met = spots::meet(table, question);
    let missed = Reply::of(met, 0, 0);
    if met.shared != question.len() {
        return missed;
    }
    if met.shared != met.len {
        return missed;
    }
    Reply::of(met, met.position, 1)
}

// (how many names are less, 0).
fn ask_place(book: &[u8], question: &[u8]) -> Reply
    requires { AnswerAsk book.now }
    ensures result_value { pair_of result ≡ (place (asked_in book.now question.now) (words_in book.now), 0) }
    ensures looked { Looked book.now question.now result.visits result.entries }
{
    let table = trailer::table_of(book);
    let spot = spots::locate(table, question);
    let before = seat(table, question, spot);
    Reply::of(spot.met, before, 0)
}

// (the question's place, how many names begin with it).
fn ask_range(book: &[u8], question: &[u8]) -> Reply
    requires { AnswerAsk book.now }
    ensures result_value { pair_of result ≡ range (asked_in book.now question.now) (words_in book.now) }
    ensures looked { Looked book.now question.now result.visits result.entries }
{
    let table = trailer::table_of(book);
    let spot = spots::locate(table, question);
    let first = seat(table, question, spot);
    if spot.met.shared < question.len() {
        return Reply::of(spot.met, first, 0);
    }
    let second = table.names(spot.node);
    Reply::of(spot.met, first, second)
}

// (the position reached, the symbols that its name and the question share). It stays a function, as `ask_exact`.
#[inline(never)]
fn ask_nearest(book: &[u8], question: &[u8]) -> Reply
    requires { AnswerAsk book.now }
    ensures result_value { pair_of result ≡ nearest (asked_in book.now question.now) (words_in book.now) }
    ensures looked { Looked book.now question.now result.visits result.entries }
{
    let table = trailer::table_of(book);
    let met = spots::meet(table, question);
    Reply::of(met, met.position, met.shared)
}

// (the greatest length of the names that begin with the question, 0): of those the node tells it, and no name of the range is read.
// It stays a function, as `ask_exact`.
#[inline(never)]
fn ask_width(book: &[u8], question: &[u8]) -> Reply
    requires { AnswerAsk book.now }
    ensures result_value { pair_of result ≡ (width (asked_in book.now question.now) (words_in book.now), 0) }
    ensures looked { Looked book.now question.now result.visits result.entries }
{
    let table = trailer::table_of(book);
    let spot = spots::locate(table, question);
    if spot.met.shared != question.len() {
        return Reply::of(spot.met, 0, 0);
    }
    Reply::of(spot.met, table.width(spot.node), 0)
}

// A question of a kind. Two kinds are told from three first: of five equal tests in a row, or of one `match` with five arms, the compiler would
// make a table of places to go to.
pub fn answer(book: &[u8], kind: Asked, question: &[u8]) -> Reply
    requires { AnswerAsk book.now }
    ensures result_value { pair_of result ≡ ask (number_of kind) (asked_in book.now question.now) (words_in book.now) }
    ensures looked { Looked book.now question.now result.visits result.entries }
{
    if matches!(kind, Asked::Exact | Asked::Place) {
        return match kind {
            Asked::Exact => ask_exact(book, question),
            _ => ask_place(book, question),
        };
    }
    match kind {
        Asked::Range => ask_range(book, question),
        Asked::Nearest => ask_nearest(book, question),
        _ => ask_width(book, question),
    }
}
