// Two lists of names that read well become one. One loop goes over them from head to head, which `heads` finds; it counts, and it writes.
#![tactic(auto)]

ghost use Rattle.std.specs.Prelude.{◌≡◌};
ghost use Rattle.format.specs.Alone.{BothRead};
ghost use Rattle.answers.specs.Merging.{merge_lists};
ghost use Rattle.shapes.specs.Endings.{wrote};
ghost use Rattle.merge.specs.Joining.{MergeAsk, MergedInto};

use heads::Side;
use refusals::Refusal;

// How many names a merged list has, and how many bytes its records take.
#[derive(Clone, Copy)]
pub struct Tally {
    pub names: usize,
    pub bytes: usize,
}

// The records of both lists in one row, as far as there is room for them; in an empty room it only counts. Either list goes on by as much as
// its record has, so no index is counted, and the loop is no `for`.
pub fn merge_into(first: &[u8], second: &[u8], room: &mut [u8]) -> Tally
    requires { MergeAsk first.now second.now }
    ensures { MergedInto first.now second.now room.old room.new result.names result.bytes }
{
    let mut i: usize = 0;
    let mut j: usize = 0;
    let mut names: usize = 0;
    let mut bytes: usize = 0;
    while i + j < first.len() + second.len() {
        let next = heads::next_head(first, i, second, j);
        let size = next.size;
        match next.side {
            Side::First => records::put_record(first, next.from, size, room, bytes),
            Side::Second => records::put_record(second, next.from, size, room, bytes),
        }
        i = next.left;
        j = next.right;
        names += 1;
        bytes += size;
    }
    Tally { names, bytes }
}

// The union of two lists that read well, at the front of the room, and how many bytes it has. It is counted, in no byte of the room, before
// the first one is written. Refusals: 7, 4.
pub fn merge_judged(first: &[u8], second: &[u8], room: &mut [u8]) -> Result<usize, Refusal>
    requires { BothRead first.now second.now }
    ensures { wrote result room.new ≡ merge_lists first.now second.now room.old }
{
    let none = 0;
    let tally = merge_into(first, second, &mut room[0..none]);
    if 2000 < tally.names {
        return Err(Refusal::TooManyNames(2000));
    }
    if room.len() < tally.bytes {
        return Err(Refusal::RoomTooShort);
    }
    let put = merge_into(first, second, room);
    Ok(put.bytes)
}
