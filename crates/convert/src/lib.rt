// A book turned into one of another kind: the same names in the same blocks, and the node table in its other form. All before the table is
// copied, the table is turned, and the trailer is written with the other mark. One function serves both ways.
#![tactic(auto)]

ghost use Rattle.std.specs.Prelude.{◌≡◌, ◌≤◌, ◌<◌, length};
ghost use Rattle.format.specs.Book.{book as book_of, names_of};
ghost use Rattle.format.specs.Outcomes.{over};
ghost use Rattle.answers.specs.Converting.{converted};
ghost use Rattle.kinds.specs.Known.{kind_by};
ghost use Rattle.shapes.specs.Endings.{wrote};
ghost use Rattle.convert.specs.Turns.{OtherAsk, Turns, turn_for};

use kinds::{Form, Kind};
use refusals::Refusal;
use trailer::Trailer;

// How a table is turned: so many rows of so many numbers, and how far apart the numbers of a row stand.
#[derive(Clone, Copy)]
pub struct Turn {
    pub rows: usize,
    pub inner: usize,
    pub step: usize,
}

// How a table of m nodes is turned into that of a kind.
fn turn_to(kind: Kind, m: usize) -> Turn
    requires { m < 65536 }
    ensures { result ≡ turn_for (kind_by kind) m }
{
    match kind.form() {
        Form::Rows => Turn {
            rows: m,
            inner: 6,
            step: 2 * m,
        },
        Form::Columns => Turn {
            rows: 6,
            inner: m,
            step: 12,
        },
    }
}

// The book of another kind, at the front of the room. It stays a function: the compiler would make one of its own for each way, three times as
// long, and a sixth slower on the way to columns.
#[inline(never)]
fn write_other(book: &[u8], t: Trailer, kind: Kind, room: &mut [u8])
    requires { OtherAsk book.now t (kind_by kind) × (length book.now ≤ length room.old) }
    ensures { room.new ≡ over (book_of (kind_by kind) t.block (names_of book.now)) room.old }
{
    let nodes = usize::from(t.nodes_at);
    let m = usize::from(t.nodes);
    let total = book.len();
    let end = total - trailer::SIZE;
    let turn = turn_to(kind, m);
    numbers::copy(&book[0..nodes], room);
    turning::turn_table(
        book,
        nodes,
        turn.rows,
        2,
        turn.inner,
        turn.step,
        &mut room[nodes..end],
    );
    trailer::put_trailer(
        &mut room[end..total],
        usize::from(t.names),
        usize::from(t.block),
        usize::from(t.blocks_at),
        nodes,
        m,
        total,
        kind,
    );
}

// A book of one kind as one of the other, at the front of the room, and how many bytes it has. Refusals: 2, also for a book of another
// kind; 4.
pub fn convert(book: &[u8], from: Kind, to: Kind, room: &mut [u8]) -> Result<usize, Refusal>
    requires { Turns (kind_by from) (kind_by to) }
    ensures { wrote result room.new ≡ converted (kind_by from) (kind_by to) book.now room.old }
{
    let Some(t) = accept::check_book(book) else {
        return Err(Refusal::NoBook);
    };
    if t.kind != from {
        return Err(Refusal::NoBook);
    }
    if room.len() < book.len() {
        return Err(Refusal::RoomTooShort);
    }
    write_other(book, t, to, room);
    Ok(book.len())
}
