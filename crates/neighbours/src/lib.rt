// What a name of a book shares with the name before it, once the entries are judged: by the name before it, where that is at hand, or from the
// entries alone. The stored count says how many bytes it is, but of a block's first name, which is stored whole; names that part in bytes can
// go on in the same symbols. Where the count does not say it, a name is held to the names before it in their block, entry by entry, and no
// name is rebuilt.
#![tactic(auto)]

ghost use Rattle.std.specs.Prelude.{◌≡◌, ◌+◌, ◌-◌, ◌*◌, ◌<◌, ◌≤◌, get_or, length};
ghost use Rattle.symbols.specs.Rules.{rule_by};
ghost use Rattle.words.specs.Words.{shared, word};
ghost use Rattle.streams.specs.Streams.{EntryAt, entry_end, length_at, name_at};
ghost use Rattle.neighbours.specs.Neighbours.{AlongAsk, AlongSays, AlongCountAsk, EndAsk, MeetAsk, NextAsk, PartSays, RestAsk, StartAsk, end_by, shared_before, shared_next, shared_parts, block_start, whole_before};

use symbols::{FoldedRule, KnownRule, PlainRule, Rule};

// Where the entry after the one at an offset stands.
pub fn next_entry(book: &[u8], at: usize) -> usize
    requires { entry_end book.now at ≤ length book.now }
    ensures { result ≡ entry_end book.now at }
{
    at + 2 + usize::from(book[at + 1])
}

// The length of the name of the entry at an offset.
pub fn length_of(book: &[u8], at: usize) -> usize
    requires { at + 2 ≤ length book.now }
    ensures { (result ≡ length_at book.now at) × (result ≤ 510) }
{
    usize::from(book[at]) + usize::from(book[at + 1])
}

// How many symbols the name at hand shares with the next one, whose entry stands at an offset: as many as the entry counts bytes, and what its
// rest goes on with. A block's first name counts none, and has all of it in its rest.
pub fn shared_ahead(rule: Rule, book: &[u8], at: usize, name: &[u8]) -> usize
    requires { EntryAt book.now at (length name.now) }
    ensures { result ≡ shared (word (rule_by rule) name.now) (word (rule_by rule) (name_at book.now at name.now)) }
{
    let c = usize::from(book[at]);
    let from = at + 2;
    let end = next_entry(book, at);
    let more = symbols::shared_symbols(rule, &name[c..], &book[from..end]);
    c + more
}

// How many symbols the bytes from `own` to `end` share with those from `other` on; none, where `own` stands behind `end`. The index is counted by
// hand: with a `for` over `0..size` the check of the stations' node table takes 3 instructions in a hundred more, and with one over `own..end`
// that of a folded book 8.
fn shared_rest<R: KnownRule>(book: &[u8], own: usize, end: usize, other: usize) -> usize
    requires { RestAsk (rule_by R.rule) book.now own end other }
    ensures { (result ≡ shared_parts (rule_by R.rule) book.now own end other) × (result ≤ end - own) }
{
    let mut x: usize = 0;
    while own + x < end {
        if !symbols::is_alike(R::rule(), book[own + x], book[other + x]) {
            return x;
        }
        x += 1;
    }
    x
}

// Up to where the rest of the entry at `at` is held, from `own` on, to that of the entry at a, from `other` on. By the plain rule the name at
// a is a whole one, and above each that it is held to, so they part before it ends. By the folded rule a name before it can begin with other
// bytes than it, and then go on as it does, and longer: no byte behind the entry at a is looked at.
fn end_of<R: KnownRule>(book: &[u8], at: usize, own: usize, a: usize, other: usize) -> usize
    requires { EndAsk book.now at own a other }
    ensures { result ≡ end_by R.rule book.now at own a other }
{
    let end = next_entry(book, at);
    match R::rule() {
        Rule::Plain => end,
        Rule::Folded => end.min(own + (next_entry(book, a) - other)),
    }
}

// What the name of the entry at `at` shares with that of the entry at a from its stored count c on, with c, where the name before it shares x:
// as much, where it has more than that from the name before; else what it has from there, or c, and what the rests share behind that.
fn shared_next<R: KnownRule>(book: &[u8], at: usize, a: usize, c: usize, x: usize) -> usize
    requires { NextAsk R.rule book.now at a c x }
    ensures { result ≡ shared_next (rule_by R.rule) book.now at a x }
{
    let e = usize::from(book[at]);
    if x < e {
        return x;
    }
    let from = e.max(c);
    let own = at + 2 + (from - e);
    let other = a + 2 + (from - c);
    from + shared_rest::<R>(book, own, end_of::<R>(book, at, own, a, other), other)
}

// What the name of the entry at a, whose stored count is c, shares with the name before it, counted along the entries from `start` on, which
// stores a name whole. By the plain rule its own name is stored whole. The walk goes from entry to entry and counts none, so the loop is no `for`.
fn counted_along<R: KnownRule>(book: &[u8], start: usize, a: usize, c: usize) -> usize
    requires { AlongAsk R.rule book.now start a c }
    ensures { AlongSays (rule_by R.rule) book.now a result }
{
    let mut at = start;
    let mut x = c;
    while at < a {
        x = shared_next::<R>(book, at, a, c, x);
        at = next_entry(book, at);
    }
    x
}

// Where the block of name number i starts.
fn start_of(book: &[u8], i: usize) -> usize
    requires { StartAsk book.now i }
    ensures { result ≡ block_start book.now i }
{
    let k = trailer::block(book);
    numbers::number_at(book, trailer::blocks_at(book) + 2 * (i / k))
}

// An entry from which the names up to number i can be gone along: its own, at p, where it stores the name whole; else its block's first.
fn whole_before(book: &[u8], p: usize, i: usize) -> usize
    requires { StartAsk book.now i × (p < length book.now) }
    ensures { result ≡ whole_before book.now p i }
{
    if book[p] == 0 {
        return p;
    }
    start_of(book, i)
}

// Where the entry of a name stands, and how many symbols the name shares with the one before it.
#[derive(Clone, Copy)]
struct Shared {
    at: usize,
    symbols: usize,
}

// What name number i, whose entry stands at a, shares with the name before it, whose entry stands at p. The place comes back with it, so what
// calls this keeps one number less while it counts: without, a check of a book with blocks of one name takes 2 instructions in a hundred more.
fn shared_along(book: &[u8], p: usize, a: usize, i: usize) -> Shared
    requires { AlongCountAsk book.now p a i }
    ensures place { result.at ≡ a }
    ensures count { result.symbols ≡ shared_before book.now i }
{
    let start = whole_before(book, p, i - 1);
    match trailer::rule(book) {
        Rule::Plain => Shared {
            at: a,
            symbols: counted_along::<PlainRule>(book, start, a, 0),
        },
        Rule::Folded => Shared {
            at: a,
            symbols: counted_along::<FoldedRule>(book, start, a, usize::from(book[a])),
        },
    }
}

// Whether name number i, whose entry stands at a and stores another count than d, can part at symbol number d from the name before it,
// whose entry stands at p: then a, which is not 0; else 0. It can't where they share more or less. It can where they share d symbols at
// least, and the entry no more bytes. By the plain rule each count says how many symbols they share, but for 0, which a block's
// first name stores. It stays a function: within the walk over the node table it would take 16 bytes of stack more at each level. So would an
// Option for an answer, and the check of that table 5 to 7 instructions in a hundred more.
#[inline(never)]
pub fn part_at(book: &[u8], p: usize, a: usize, i: usize, d: usize) -> usize
    requires { MeetAsk book.now p a i × (get_or book.now a 0 ≡ d → ⊥) }
    ensures { PartSays book.now a i d result }
{
    let c = usize::from(book[a]);
    if d < c {
        return 0;
    }
    if c == 0 {
        let shared = shared_along(book, p, a, i);
        if shared.symbols == d {
            return shared.at;
        }
        return 0;
    }
    match trailer::rule(book) {
        Rule::Plain => 0,
        Rule::Folded => {
            let shared = shared_along(book, p, a, i);
            if d <= shared.symbols {
                return shared.at;
            }
            0
        }
    }
}
