// What of damaged bytes can still be had: document 02, 'Books from a worn card'. Crate `cards` tells which blocks stand; their names go out
// as list records.
#![tactic(auto)]

ghost use Rattle.std.specs.Prelude.{◌≡◌, true, [], ◌∷◌, ◌*◌, ◌+◌, ◌≤◌, IfOk, get_or, length};
ghost use Rattle.format.specs.Records.{encode};
ghost use Rattle.format.specs.Salvage.{Broken, mapped};
ghost use Rattle.answers.specs.Salvage.{card_blocks, records_in, saved_records};
ghost use Rattle.notes.specs.Notes.{Noting};
ghost use Rattle.cards.specs.Cards.{CardBlockAsk, Verdicts};
ghost use Rattle.salvage.specs.Saving.{BytesPut, CardCount, NamesAsk, NamesPut, RecordsTake, shown_saved, saved_of};

use entries::{Cursor, Name};
use notes::Notes;
use refusals::Refusal;

// The record of a name behind the first `at` bytes of the room, if there is room for it; and where it ends.
fn put_record(name: &[u8], room: &mut [u8], at: usize) -> usize
    requires { (length name.now ≤ 200) × (at ≤ 31000000) }
    ensures { BytesPut (encode (name.now ∷ [])) room.old room.new at result }
{
    let from = at + 1;
    let end = from + name.len();
    if room.len() < end {
        return end;
    }
    room[at] = name.len() as u8;
    numbers::copy(name, &mut room[from..]);
    end
}

// The records of the m names whose entries stand at `start`, behind the first `at` bytes of the room, as far as there is room for them;
// and where they end. The names are rebuilt in a lent one.
fn put_names(
    card: &[u8],
    start: usize,
    m: usize,
    name: &mut Name,
    room: &mut [u8],
    at: usize,
) -> usize
    requires { NamesAsk card.now start m × (m ≤ 64) × (at ≤ 30000000) }
    ensures { NamesPut card.now start m room.old room.new at result }
{
    let mut cur = Cursor { at: start };
    let mut end = at;
    name.clear();
    for _ in 0..m {
        cur = cur.read(card, name);
        end = put_record(name.bytes(), room, end);
    }
    end
}

// How many bytes the records of the m names take whose entries stand at `start`. No name is rebuilt: an entry tells its name's length.
fn records_size(card: &[u8], start: usize, m: usize) -> usize
    requires { NamesAsk card.now start m × (m ≤ 64) }
    ensures { RecordsTake card.now start m result }
{
    let mut at = start;
    let mut size: usize = 0;
    for _ in 0..m {
        let rest = usize::from(card[at + 1]);
        size += usize::from(card[at]) + rest + 1;
        at += 2 + rest;
    }
    size
}

// How many bytes the records of all blocks that are whole take. Every block is judged, this one time, and what is found of it noted.
fn count_blocks(card: &[u8], notes: &mut Notes) -> usize
    requires { (mapped card.now ≡ true) × Noting notes.old 0 }
    ensures { CardCount card.now notes.new result }
{
    let mut name = Name::new();
    let mut size: usize = 0;
    for i in 0..cards::block_count(card) {
        let span = cards::span_of(card, i);
        if cards::is_whole(card, span, &mut name) {
            notes.note(i);
            size += records_size(card, span.start, span.names);
        }
    }
    size
}

// The records of block i, if it is whole, behind the first `at` bytes of the room; and where they end.
fn put_block(
    card: &[u8],
    notes: &Notes,
    i: usize,
    name: &mut Name,
    room: &mut [u8],
    at: usize,
) -> usize
    requires { CardBlockAsk card.now i × Verdicts card.now notes.now × (at ≤ 12864 * i) }
    ensures { BytesPut (records_in (get_or (card_blocks card.now) i Broken)) room.old room.new at result × (result ≤ 12864 * (i + 1)) }
{
    if !notes.has(i) {
        return at;
    }
    let span = cards::span_of(card, i);
    put_names(card, span.start, span.names, name, room, at)
}

// The records of all blocks that are whole, as far as there is room for them, and how many bytes they take.
fn put_blocks(card: &[u8], notes: &Notes, room: &mut [u8]) -> usize
    requires { (mapped card.now ≡ true) × Verdicts card.now notes.now }
    ensures { BytesPut (saved_records (card_blocks card.now)) room.old room.new 0 result }
{
    let mut name = Name::new();
    let mut end: usize = 0;
    for i in 0..cards::block_count(card) {
        end = put_block(card, notes, i, &mut name, room, end);
    }
    end
}

// What was saved: so many bytes, and what was found of each block.
#[derive(Clone, Copy)]
pub struct Saved {
    pub size: usize,
    pub notes: Notes,
}

// The records of all blocks that are whole, at the front of the room, for a report of so many rows. They are counted before the first one is
// written. Refusals: 13, 12, 4.
pub fn save_names(card: &[u8], rows: usize, room: &mut [u8]) -> Result<Saved, Refusal>
    ensures saved { shown_saved result room.new ≡ saved_of card.now rows room.old }
    ensures verdicts { IfOk result (λ saved. Verdicts card.now saved.notes) }
{
    if !cards::is_mapped(card) {
        return Err(Refusal::NoMap);
    }
    if rows != cards::block_count(card) {
        return Err(Refusal::BadBatch);
    }
    let mut notes = Notes::new();
    let size = count_blocks(card, &mut notes);
    if room.len() < size {
        return Err(Refusal::RoomTooShort);
    }
    let end = put_blocks(card, &notes, room);
    Ok(Saved { size: end, notes })
}
