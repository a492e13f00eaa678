// The walk over the entries of a book and its block table: block by block, each from its offset in the table to the next one's, and its
// first name above the last one of the block before it.
#![tactic(auto)]

ghost use Rattle.std.specs.Prelude.{◌≡◌, ◌+◌, ◌<◌, ◌≤◌, length};
ghost use Rattle.streams.specs.Runs.{Frame, end_of};
ghost use Rattle.symbols.specs.Rules.{rule_by};
ghost use Rattle.walk.specs.Walking.{NextSays, WalkSays};

use entries::Name;
use symbols::Rule;

// Where the block ends whose offset stands at `slot`: at the next offset, or, as the last one, where the block table starts.
fn block_end(book: &[u8], k: usize, blocks: usize, slot: usize, left: usize) -> usize
    requires { slot + 4 ≤ length book.now }
    ensures { result ≡ end_of book.now k blocks slot left }
{
    if left <= k {
        return blocks;
    }
    numbers::number_at(book, slot + 2)
}

// Whether a block of m names stands from an offset to `end`, its first name above the lent one, whose place its last name takes. So the
// first name, which its entry has whole, is compared before the block is gone over.
fn next_block(rule: Rule, book: &[u8], start: usize, end: usize, m: usize, name: &mut Name) -> bool
    requires { (start + 2 ≤ length book.now) × (end ≤ length book.now) × (0 < m) }
    ensures { NextSays (rule_by rule) book.now start end m name.old result name.new }
{
    let from = start + 2;
    let to = from + usize::from(book[start + 1]);
    if end < to {
        return false;
    }
    if !symbols::is_less(rule, name.bytes(), &book[from..to]) {
        return false;
    }
    runs::check_block(rule, book, start, end, m, name)
}

// Whether the bytes before `blocks` are the entries of some sound list of n names in blocks of k, and those from there to `nodes` their
// offsets. A turn takes a block, and with it as many names from those that are left as the block has.
pub fn check_entries(
    rule: Rule,
    book: &[u8],
    n: usize,
    k: usize,
    blocks: usize,
    nodes: usize,
) -> bool
    requires { Frame book.now k blocks nodes }
    ensures { WalkSays (rule_by rule) book.now k blocks nodes n result }
{
    let mut at: usize = 0;
    let mut slot = blocks;
    let mut left = n;
    let mut name = Name::new();
    while 0 < left {
        if nodes - slot < 2 {
            return false;
        }
        if numbers::number_at(book, slot) != at {
            return false;
        }
        let end = block_end(book, k, blocks, slot, left);
        if blocks < end {
            return false;
        }
        let m = left.min(k);
        if !next_block(rule, book, at, end, m, &mut name) {
            return false;
        }
        at = end;
        slot += 2;
        left -= m;
    }
    if at != blocks {
        return false;
    }
    slot == nodes
}
