// The trailer of a book: its numbers read, judged, and written. How many bytes it has, and where in it a number stands, is known here and
// nowhere else. Who has checked a book hands its numbers on by value.
#![tactic(auto)]

ghost use Rattle.std.specs.Prelude.{◌≡◌, ◌<◌, ◌≤◌, length};
ghost use Rattle.format.specs.Book.{told, trailer, trailer_size};
ghost use Rattle.format.specs.Kinds.{kind_of, mark_of};
ghost use Rattle.standing.specs.Maps.{map_of};
ghost use Rattle.symbols.specs.Rules.{by_kind};
ghost use Rattle.kinds.specs.Known.{kind_by, kind_for};
ghost use Rattle.trailer.specs.Trailer.{TrailSays, trailer_in};

use fields::Table;
use kinds::{Form, Kind};
use symbols::Rule;

// How many bytes a trailer has.
pub const SIZE: usize = 16;

// The front of every mark as a number, 4E 42. The back is its kind's.
const FRONT: usize = 0x424E;

// What the trailer tells of its book, but for its length. Numbers are u16, as stored, to save stack.
#[derive(Clone, Copy)]
pub struct Trailer {
    // How many names, in blocks of how many.
    pub names: u16,
    pub block: u16,
    // Where the block table and the node table start.
    pub blocks_at: u16,
    pub nodes_at: u16,
    // How many nodes.
    pub nodes: u16,
    // The kind of book that its mark tells.
    pub kind: Kind,
}

// Number j of the trailer.
fn number(book: &[u8], j: usize) -> usize
    requires { (trailer_size ≤ length book.now) × (j < 8) }
    ensures { (result ≡ told book.now j) × (result < 65536) }
{
    numbers::number_at(book, book.len() - SIZE + 2 * j)
}

// How many names there are.
pub fn names(book: &[u8]) -> usize
    requires { trailer_size ≤ length book.now }
    ensures { (result ≡ told book.now 0) × (result < 65536) }
{
    number(book, 0)
}

// How many names a block has. Who walks in a recursion asks for it where it is wanted: each number that is handed down costs every level
// of it.
pub fn block(book: &[u8]) -> usize
    requires { trailer_size ≤ length book.now }
    ensures { (result ≡ told book.now 1) × (result < 65536) }
{
    number(book, 1)
}

// Where the block table starts.
pub fn blocks_at(book: &[u8]) -> usize
    requires { trailer_size ≤ length book.now }
    ensures { (result ≡ told book.now 2) × (result < 65536) }
{
    number(book, 2)
}

// Where the node table starts.
pub fn nodes_at(book: &[u8]) -> usize
    requires { trailer_size ≤ length book.now }
    ensures { (result ≡ told book.now 3) × (result < 65536) }
{
    number(book, 3)
}

// The kind of book that the third byte of the mark tells.
pub fn kind(book: &[u8]) -> Kind
    requires { trailer_size ≤ length book.now }
    ensures { result ≡ kind_for (kind_of book.now) }
{
    Kind::marked(book[book.len() - 2])
}

// By which rule the names have their symbols: one test of one byte. Who walks in a recursion asks for it where it is wanted.
pub fn rule(book: &[u8]) -> Rule
    requires { trailer_size ≤ length book.now }
    ensures { result ≡ by_kind (kind_of book.now) }
{
    if book[book.len() - 2] == 0x46 {
        return Rule::Folded;
    }
    Rule::Plain
}

// The node table that the trailer tells of: an arm for each form of table that has nodes.
pub fn table_of(book: &[u8]) -> Table<'_>
    requires { trailer_size ≤ length book.now }
    ensures book_same { result.book.now ≡ book.now }
    ensures map_told { (result.stride ≡ (map_of book.now).stride) × (result.step ≡ (map_of book.now).step) }
{
    match kind(book).form() {
        Form::Rows => Table {
            book,
            stride: fields::SIZE,
            step: fields::STEP,
        },
        Form::Columns => Table {
            book,
            stride: fields::STEP,
            step: fields::STEP * number(book, 4),
        },
    }
}

// What the trailer tells.
pub fn read(book: &[u8]) -> Trailer
    requires { trailer_size ≤ length book.now }
    ensures { result ≡ trailer_in book.now }
{
    Trailer {
        names: names(book) as u16,
        block: block(book) as u16,
        blocks_at: blocks_at(book) as u16,
        nodes_at: nodes_at(book) as u16,
        nodes: number(book, 4) as u16,
        kind: kind(book),
    }
}

// Whether the trailer's numbers agree with each other and with the length, and the mark stands behind them.
pub fn is_trailer(book: &[u8]) -> bool
    ensures { TrailSays book.now result }
{
    if !(SIZE..=65535).contains(&book.len()) {
        return false;
    }
    if 2000 < names(book) {
        return false;
    }
    if !(1..=64).contains(&block(book)) {
        return false;
    }
    let start = nodes_at(book);
    if start < blocks_at(book) {
        return false;
    }
    let size = kind(book).form().record_size();
    if start + number(book, 4) * size + SIZE != book.len() {
        return false;
    }
    if number(book, 5) != book.len() {
        return false;
    }
    if number(book, 6) != FRONT {
        return false;
    }
    Kind::with_mark(number(book, 7)).is_some()
}

// The trailer of a book of so many names in blocks of so many, with these starts of its tables, so many nodes and so many bytes in all, and
// the mark of its kind, which is two numbers more.
pub fn put_trailer(
    part: &mut [u8],
    names: usize,
    block: usize,
    blocks: usize,
    nodes: usize,
    count: usize,
    total: usize,
    kind: Kind,
)
    requires { length part.old ≡ trailer_size }
    ensures { part.new ≡ trailer (mark_of (kind_by kind)) names block blocks nodes count total }
{
    let back = kind.mark_back();
    let fields = [names, block, blocks, nodes, count, total, FRONT, back];
    numbers::put_numbers(part, &fields);
}
