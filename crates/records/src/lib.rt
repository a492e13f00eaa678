// Judging a list: document 01, 'The first bad record ends the reading'. One loop over the records yields the verdict by `break`; the
// comparison of a name with the one before is nested inside and left by its label. It finds the bytes that both begin with; from there on
// symbols are compared, and the first that differs tells the order. What it learns on the way, each name's length and how many bytes and
// how many symbols it shares with the name before, is noted for those who write the book, as far as there are places to note it.
// And a record is put at its place in a room, where there is room for it.
#![tactic(auto)]

ghost use Rattle.std.specs.Prelude.{◌≡◌, ◌+◌, ◌≤◌, length};
ghost use Rattle.words.specs.Words.{shared};
ghost use Rattle.symbols.specs.Rules.{rule_by};
ghost use Rattle.records.specs.Above.{shared_above};
ghost use Rattle.records.specs.Lists.{Judged};
ghost use Rattle.records.specs.Notes.{counts_of, lens_of, shares_of};
ghost use Rattle.records.specs.Putting.{RecordPut};

use refusals::Refusal;
use symbols::{FoldedRule, KnownRule, PlainRule, Rule};

// What is noted of a name: how many bytes it has, and how many bytes and how many symbols it shares with the name before it.
#[derive(Clone, Copy)]
pub struct Note {
    pub len: u8,
    pub count: u8,
    pub share: u8,
}

// How many symbols a name shares with the last one, of which it has i bytes and no more; none where it is not above it.
fn shared_above(rule: Rule, last: &[u8], name: &[u8], i: usize) -> Option<usize>
    requires { i ≡ shared last.now name.now }
    ensures { result ≡ shared_above (rule_by rule) last.now name.now }
{
    let most = name.len().min(last.len());
    let j = i + symbols::shared_on(rule, &last[i..most], &name[i..most]);
    if j == most {
        return if last.len() < name.len() {
            Some(j)
        } else {
            None
        };
    }
    if symbols::is_higher(rule, last[j], name[j]) {
        Some(j)
    } else {
        None
    }
}

// Reads a list that may have `limit` names: how many it has, or what is wrong with its first bad record. The name before stands at `prev` and
// has `before` bytes: at first there is none. Both loops are left by their labels, as document 01 has it of this place.
pub fn judge<R: KnownRule>(list: &[u8], limit: usize, notes: &mut [Note]) -> Result<usize, Refusal>
    ensures { Judged (rule_by R.rule) list.now limit (lens_of notes.new) (counts_of notes.new) (shares_of notes.new) result }
{
    let mut at: usize = 0;
    let mut prev: usize = 0;
    let mut before: usize = 0;
    let mut n: usize = 0;
    'records: loop {
        if at == list.len() {
            break 'records Ok(n);
        }
        let len = usize::from(list[at]);
        if len == 0 {
            break 'records Err(Refusal::BadRecord(n));
        }
        if 200 < len {
            break 'records Err(Refusal::BadRecord(n));
        }
        let start = at + 1;
        if list.len() - start < len {
            break 'records Err(Refusal::BadRecord(n));
        }
        let most = len.min(before);
        let mut i: usize = 0;
        'bytes: loop {
            if i == most {
                break 'bytes;
            }
            if list[prev + i] != list[start + i] {
                break 'bytes;
            }
            i += 1;
        }
        let last = prev + before;
        let end = start + len;
        let Some(j) = shared_above(R::rule(), &list[prev..last], &list[start..end], i) else {
            break 'records Err(Refusal::NotAbove(n));
        };
        if limit <= n {
            break 'records Err(Refusal::TooManyNames(n));
        }
        if n < notes.len() {
            notes[n] = Note {
                len: len as u8,
                count: i as u8,
                share: j as u8,
            };
        }
        prev = start;
        before = len;
        at = end;
        n += 1;
    }
}

// The same by a rule that is told when it runs. Each arm's loop tests no rule.
pub fn judge_by(rule: Rule, list: &[u8], limit: usize, notes: &mut [Note]) -> Result<usize, Refusal>
    ensures { Judged (rule_by rule) list.now limit (lens_of notes.new) (counts_of notes.new) (shares_of notes.new) result }
{
    match rule {
        Rule::Plain => judge::<PlainRule>(list, limit, notes),
        Rule::Folded => judge::<FoldedRule>(list, limit, notes),
    }
}

// The record at an offset of a list, at a place of the room, where there is room for it.
pub fn put_record(list: &[u8], from: usize, size: usize, room: &mut [u8], at: usize)
    requires { from + size ≤ length list.now }
    ensures { RecordPut list.now from size room.old room.new at }
{
    if room.len() < at {
        return;
    }
    if room.len() - at < size {
        return;
    }
    let to = from + size;
    numbers::copy(&list[from..to], &mut room[at..]);
}
