// Two lists of names are judged, the first before the second. Each is judged by the loop that judges a list for a book.
#![tactic(auto)]

ghost use Rattle.std.specs.Prelude.{◌≡◌};
ghost use Rattle.format.specs.Alone.{read_alone};
ghost use Rattle.answers.specs.Merging.{judge_lists};
ghost use Rattle.records.specs.Lists.{reading_of, verdict_numbers};
ghost use Rattle.judging.specs.Ends.{judged_both};

use refusals::Refusal;
use symbols::PlainRule;

// Which of two lists does not read well, and why.
#[derive(Clone, Copy)]
pub enum Unread {
    First(Refusal),
    Second(Refusal),
}

// Reads a list that has no limit of its own, and notes nothing.
fn judge_alone(list: &[u8]) -> Result<usize, Refusal>
    ensures { verdict_numbers result ≡ reading_of (read_alone list.now) }
{
    records::judge::<PlainRule>(list, list.len(), &mut [])
}

// Whether both lists read well: else refusal 5 or 6 with the record's number, of the first list before the second. It is put into each of its three
// callers: as a function of its own it gives its answer in memory that is cleared first, 16 bytes at a time, and then whoever only judges or
// steps needs an aligned stack and xmm registers.
#[inline(always)]
pub fn judge_both(first: &[u8], second: &[u8]) -> Result<(), Unread>
    ensures { judged_both result ≡ judge_lists first.now second.now }
{
    judge_alone(first).map_err(Unread::First)?;
    judge_alone(second).map_err(Unread::Second)?;
    Ok(())
}
