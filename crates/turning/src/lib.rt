// A node table in its other form: rows become columns, and columns become rows. Both are one function with other numbers. It writes number
// by number without gaps, and is told how far apart the numbers stand that it reads.
#![tactic(auto)]

ghost use Rattle.std.specs.Prelude.{◌≡◌};
ghost use Rattle.turning.specs.Turning.{GatherAsk, TurnAsk, gather, turned};

// `count` numbers of two bytes: the first at `from`, each other one `step` bytes behind the one before. Both bytes are read before either
// is written, so that the compiler moves them at once: as far as it knows, the part may overlap the book. They are written by their
// place: of chunks that are lent out of the part a proof knows no byte when they come back.
fn gather_numbers(book: &[u8], from: usize, step: usize, count: usize, part: &mut [u8])
    requires { GatherAsk book.now from step count part.old }
    ensures { part.new ≡ gather book.now from step count }
{
    let mut place = from;
    for i in 0..count {
        let at = 2 * i;
        let low = book[place];
        let high = book[place + 1];
        part[at] = low;
        part[at + 1] = high;
        place += step;
    }
}

// `rows` rows of `inner` numbers each: the first row begins at `from`, each other one `far` bytes behind the one before. A table of m nodes
// becomes columns by 6, 2, m, 12, and rows by m, 2, 6, 2 * m.
pub fn turn_table(
    book: &[u8],
    from: usize,
    rows: usize,
    far: usize,
    inner: usize,
    step: usize,
    part: &mut [u8],
)
    requires { TurnAsk book.now from rows far inner step part.old }
    ensures { part.new ≡ turned book.now from rows far inner step }
{
    let mut place = from;
    let mut at: usize = 0;
    for _ in 0..rows {
        let end = at + 2 * inner;
        gather_numbers(book, place, step, inner, &mut part[at..end]);
        place += far;
        at = end;
    }
}
