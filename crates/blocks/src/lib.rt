// The entries, block by block, and the block table: where each block begins. What neighbours share, and how long a name is, was noted when
// the list was judged, so nothing is compared.
#![tactic(auto)]

ghost use Rattle.std.specs.Prelude.{◌≡◌, ◌∷◌, ◌++◌, ◌+◌, ◌≤◌, ◌<◌, length};
ghost use Rattle.format.specs.Book.{block_part, entry_part};
ghost use Rattle.records.specs.Lists.{names};
ghost use Rattle.records.specs.Notes.{counts_of, lens_of};
ghost use Rattle.blocks.specs.Writing.{block, shared_to, stored_count, BlockAsk, BlockPut, EntriesAsk, LengthsAre, SumsAre};

use records::Note;

// The count that name i stores in a block that begins with name lo.
fn count_of(notes: &[Note], lo: usize, i: usize) -> usize
    requires { i < length notes.now }
    ensures { result ≡ stored_count lo i (counts_of notes.now) }
{
    if i == lo {
        return 0;
    }
    usize::from(notes[i].count)
}

// A block: the size of its entries, and where the record after its names begins.
#[derive(Clone, Copy)]
pub struct Block {
    pub size: usize,
    pub next: usize,
}

// The entry of a name that shares c bytes with the one before: c, the length of the rest, and the rest.
fn put_entry(c: usize, rest: &[u8], part: &mut [u8])
    requires { (c < 256) × (length rest.now < 256) × (length part.old ≡ length rest.now + 2) }
    ensures { part.new ≡ c ∷ length rest.now ∷ rest.now }
{
    numbers::copy(rest, &mut part[2..]);
    part[0] = c as u8;
    part[1] = rest.len() as u8;
}

// Names lo to hi as one block, of which record lo begins at `at`, with its entries at the front of the room.
fn write_block(
    list: &[u8],
    notes: &[Note],
    lo: usize,
    at: usize,
    hi: usize,
    room: &mut [u8],
) -> Block
    requires block_ask { BlockAsk list.now (counts_of notes.now) lo at hi }
    requires lengths_are { LengthsAre (names list.now) (lens_of notes.now) }
    requires hi_in_bounds { length (block list.now lo hi) ≤ length room.old }
    ensures { BlockPut list.now lo hi room.old room.new result.size result.next }
{
    let mut size: usize = 0;
    let mut next = at;
    for i in lo..hi {
        let len = usize::from(notes[i].len);
        let c = count_of(notes, lo, i);
        let rest = len - c;
        let from = next + 1 + c;
        let to = from + rest;
        let end = size + 2 + rest;
        put_entry(c, &list[from..to], &mut room[size..end]);
        size = end;
        next += 1 + len;
    }
    Block { size, next }
}

// The entries of all names, in blocks of k, and the block table behind them, which begins at `table`.
pub fn write_blocks(list: &[u8], n: usize, notes: &[Note], k: usize, table: usize, room: &mut [u8])
    requires entries_ask { EntriesAsk list.now n (counts_of notes.now) k }
    requires lengths_are { LengthsAre (names list.now) (lens_of notes.now) }
    requires table_value { (table ≡ length (entry_part k (names list.now))) × (length room.old ≡ table + length (block_part k (names list.now))) }
    ensures { room.new ≡ entry_part k (names list.now) ++ block_part k (names list.now) }
{
    let mut at: usize = 0;
    let mut size: usize = 0;
    let mut row = table;
    for lo in (0..n).step_by(k) {
        let hi = n.min(lo + k);
        let next = row + 2;
        numbers::put16(&mut room[row..next], size);
        let b = write_block(list, notes, lo, at, hi, &mut room[size..table]);
        size += b.size;
        at = b.next;
        row = next;
    }
}

// How many blocks there are, and the size of all entries.
#[derive(Clone, Copy)]
pub struct Survey {
    pub count: usize,
    pub size: usize,
}

// What the names share with the ones before them, in all.
fn sum_of(notes: &[Note]) -> usize
    requires { length notes.now ≤ 2000 }
    ensures { result ≡ shared_to (counts_of notes.now) (length notes.now) }
{
    notes.iter().map(|note| usize::from(note.count)).sum()
}

// By sums: each name stores two bytes and what it does not share, and its record has its length byte and all of it. The first name of
// a block stores all of it too.
pub fn survey_blocks(list: &[u8], n: usize, notes: &[Note], k: usize) -> Survey
    requires { EntriesAsk list.now n (counts_of notes.now) k }
    ensures { SumsAre list.now k result.count result.size }
{
    let mut shared = sum_of(&notes[..n]);
    let mut count: usize = 0;
    for lo in (0..n).step_by(k) {
        shared -= usize::from(notes[lo].count);
        count += 1;
    }
    Survey {
        count,
        size: list.len() + n - shared,
    }
}
