// A name read back from a book, from the start of its block on.
#![tactic(auto)]

ghost use Rattle.std.specs.Prelude.{◌≡◌, [], ◌/◌, ◌%◌, get_or, take};
ghost use Rattle.format.specs.Book.{names_of, told};
ghost use Rattle.names.specs.Names.{Named, PlaceAsk, PositionAsk, Put, entries_to};

// The block of a position. k is never 0; that it is asked leaves no trap in the compiled code, in front of which every array that is used
// later would be copied.
fn block_of(k: usize, position: usize) -> usize
    ensures { result ≡ position / k }
{
    if k == 0 {
        return 0;
    }
    position / k
}

// How many names its block has before it. One division gives both.
fn rest_of(k: usize, position: usize) -> usize
    ensures { result ≡ position % k }
{
    if k == 0 {
        return position;
    }
    position % k
}

// The name at a position of a book in blocks of k names, of which the block table at `table` tells where they begin.
pub fn read_at(book: &[u8], k: usize, table: usize, position: usize) -> entries::Entry
    requires { PlaceAsk book.now k table position }
    ensures named { Named (get_or (names_of book.now) position []) (take result.len result.name) }
    ensures read_value { result.read ≡ entries_to (told book.now 1) position }
{
    let block = block_of(k, position);
    let start = numbers::number_at(book, table + 2 * block);
    entries::name_of(book, start, rest_of(k, position))
}

// The same by what the book's trailer tells.
pub fn read_name(book: &[u8], t: trailer::Trailer, position: usize) -> entries::Entry
    requires { PositionAsk book.now t position }
    ensures named { Named (get_or (names_of book.now) position []) (take result.len result.name) }
    ensures read_value { result.read ≡ entries_to (told book.now 1) position }
{
    read_at(
        book,
        usize::from(t.block),
        usize::from(t.blocks_at),
        position,
    )
}

// The name at a position at the front of the room, and its length; where the room is shorter, nothing is written and none is given.
pub fn put_name(book: &[u8], t: trailer::Trailer, position: usize, room: &mut [u8]) -> Option<usize>
    requires { PositionAsk book.now t position }
    ensures { Put (get_or (names_of book.now) position []) room.old result room.new }
{
    let entry = read_name(book, t, position);
    let name = entry.bytes();
    let len = name.len();
    if room.len() < len {
        return None;
    }
    numbers::copy(name, room);
    Some(len)
}
