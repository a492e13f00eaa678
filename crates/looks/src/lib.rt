// What one look at a node's record says. It holds no name: the entries are judged, so an entry tells what its name shares with the one
// before it, and a symbol that a record tells stands in the rest of the entry at hand. A node is told by the offset of its first number.
#![tactic(auto)]

ghost use Rattle.std.specs.Prelude.{◌≡◌, ◌+◌, ◌-◌, ◌≤◌, eqb, length, get_or};
ghost use Rattle.words.specs.Words.{at, word};
ghost use Rattle.format.specs.Kinds.{rule_in};
ghost use Rattle.format.specs.Nodes.{node_size};
ghost use Rattle.streams.specs.Streams.{length_at, rest_at};
ghost use Rattle.standing.specs.Maps.{Roomy};
ghost use Rattle.looks.specs.Looks.{ForkSays, LeadAsk, LeafSays, LedSays};

use fields::Table;

// Whether symbol number d of the name of the entry at a, which shares no more than d bytes, is s. The rule is asked for first: it is the same
// for the whole book, and which byte stands there is not.
fn leads(book: &[u8], a: usize, d: usize, s: usize) -> bool
    requires { LeadAsk book.now a d }
    ensures { result ≡ eqb s (at (word (rule_in book.now) (rest_at book.now a)) (d - get_or book.now a 0)) }
{
    let skip = d - usize::from(book[a]);
    if skip < usize::from(book[a + 1]) {
        return symbols::has_symbol(trailer::rule(book), book[a + 2 + skip], s);
    }
    s == 0
}

// Whether symbol number d of the name of the entry at a led to the node at an offset, and its first name is number i.
pub fn is_led_to(table: Table<'_>, o: usize, i: usize, d: usize, a: usize) -> bool
    requires { Roomy table.step table.book.now o × LeadAsk table.book.now a d }
    ensures { LedSays table.entry.book.now table.entry.step o i d a result }
{
    if !leads(table.book, a, d, table.symbol(o)) {
        return false;
    }
    table.first(o) == i
}

// Whether the node at an offset, of one name, whose entry stands at a, has a leaf's depth, number of nodes and width.
pub fn is_leaf(table: Table<'_>, o: usize, a: usize) -> bool
    requires { Roomy table.step table.book.now o × (a + 2 ≤ length table.book.now) }
    ensures { LeafSays table.entry.book.now table.entry.step o (length_at table.entry.book.now a) result }
{
    let length = neighbours::length_of(table.book, a);
    if table.depth(o) != length + 1 {
        return false;
    }
    if table.width(o) != length {
        return false;
    }
    table.nodes(o) == 1
}

// Whether the node at an offset can be a fork, in the row up to `end` of the node at `up`, whose depth is d: it has fewer names than
// that node, and its nodes end by `end`. Its depth is greater and below 200: two different names share no more than 199 symbols. So
// depths bound how far nodes nest, whatever the bytes.
pub fn may_be_fork(table: Table<'_>, up: usize, o: usize, end: usize, d: usize) -> bool
    requires { Roomy table.step table.book.now up × Roomy table.step table.book.now o × (table.stride ≤ node_size) }
    ensures { ForkSays table.entry.book.now table.entry.stride table.entry.step up o end d result }
{
    if table.names(up) <= table.names(o) {
        return false;
    }
    let depth = table.depth(o);
    if depth <= d {
        return false;
    }
    if 200 <= depth {
        return false;
    }
    o + table.nodes(o) * table.stride <= end
}
