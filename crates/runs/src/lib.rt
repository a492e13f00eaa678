// The entries of one block, judged alone. What an entry stores is counted in bytes, under every rule; that names rise is asked of their
// symbols.
#![tactic(auto)]

ghost use Rattle.std.specs.Prelude.{◌≤◌, length};
ghost use Rattle.symbols.specs.Rules.{rule_by};
ghost use Rattle.runs.specs.Judging.{BlockSays, EntrySays};

use entries::{Cursor, Name};
use symbols::{FoldedRule, KnownRule, PlainRule, Rule};

// Whether an entry that ends by `end` stands at an offset, after the name prev. Where prev goes on behind the count, the next bytes differ,
// so the count is the greatest possible; and the symbols from there on rise: by the plain rule those bytes tell it.
fn is_entry(rule: Rule, book: &[u8], at: usize, end: usize, prev: &[u8]) -> bool
    requires { end ≤ length book.now }
    ensures { EntrySays (rule_by rule) book.now at end prev.now result }
{
    if end < 2 {
        return false;
    }
    if end - 2 < at {
        return false;
    }
    let c = usize::from(book[at]);
    let n = usize::from(book[at + 1]);
    if end - 2 - at < n {
        return false;
    }
    if n == 0 {
        return false;
    }
    if prev.len() < c {
        return false;
    }
    if 200 < c + n {
        return false;
    }
    if prev.len() == c {
        return true;
    }
    let from = at + 2;
    if prev[c] == book[from] {
        return false;
    }
    let to = from + n;
    match rule {
        Rule::Plain => prev[c] < book[from],
        Rule::Folded => symbols::is_less(Rule::Folded, &prev[c..], &book[from..to]),
    }
}

// Whether the entries of a block of m names stand from an offset to `end`, by a rule that is known; then the lent name is its last one. By a
// known rule the compiler leaves the other one out, and puts the loop where the check is, with its copies (DECISIONS 126). Who reads only
// plain books calls it: were `check_block` called from two places, it would stand in neither (DECISIONS 135).
pub fn block_by<R: KnownRule>(
    book: &[u8],
    start: usize,
    end: usize,
    m: usize,
    name: &mut Name,
) -> bool
    requires { end ≤ length book.now }
    ensures { BlockSays (rule_by R.rule) book.now start end m result name.new }
{
    let rule = R::rule();
    let mut cur = Cursor { at: start };
    name.clear();
    for _ in 0..m {
        if !is_entry(rule, book, cur.at, end, name.bytes()) {
            return false;
        }
        cur = cur.read(book, name);
    }
    cur.at == end
}

// The same by any rule, which is decided once a block.
pub fn check_block(
    rule: Rule,
    book: &[u8],
    start: usize,
    end: usize,
    m: usize,
    name: &mut Name,
) -> bool
    requires { end ≤ length book.now }
    ensures { BlockSays (rule_by rule) book.now start end m result name.new }
{
    match rule {
        Rule::Plain => block_by::<PlainRule>(book, start, end, m, name),
        Rule::Folded => block_by::<FoldedRule>(book, start, end, m, name),
    }
}
