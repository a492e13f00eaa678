// How many nodes a list has, before any is written: the writer's own walk over the names from the last, with the depths of the open nodes
// and no record.
#![tactic(auto)]

ghost use Rattle.std.specs.Prelude.{◌≡◌, ◌<◌, length, get_or};
ghost use Rattle.records.specs.Notes.{shares_of};
ghost use Rattle.counting.specs.Counting.{CountAsk, NodeCount, StaysOpen};

use records::Note;

// The top one of the frames up to `top` when those that are deeper than `left` have closed. Number 0 has depth 0 and ends the search, so that
// each frame is tested once: with a range over their numbers, which is a second test, counting takes a fifth more instructions.
fn close_frames(depths: &[u8], left: usize, top: usize) -> usize
    requires { (top < length depths.now) × (get_or depths.now 0 0 ≡ 0) }
    ensures { StaysOpen depths.now left top result }
{
    let mut frame = top;
    while left < usize::from(depths[frame]) {
        frame -= 1;
    }
    frame
}

// How many nodes the table has, from what each name shares with the one before it alone: a leaf for each name, and a node for each
// frame.
pub fn count_nodes(n: usize, notes: &[Note]) -> usize
    requires { CountAsk n (shares_of notes.now) }
    ensures { NodeCount n (shares_of notes.now) result }
{
    let mut depths = [0u8; frames::FRAMES];
    let mut top: usize = 0;
    let mut count = n;
    for j in (0..n).rev() {
        let left = nodes::left_of(notes, j);
        top = close_frames(&depths, left, top);
        if usize::from(depths[top]) < left {
            top += 1;
            depths[top] = left as u8;
            count += 1;
        }
    }
    count
}
