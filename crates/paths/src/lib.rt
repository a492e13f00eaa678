// The way that a question takes down the node table of an accepted book: the nodes that it passes, kept by their offsets, and the highest of
// them that is deep enough. A node is told by the offset of its first number.
#![tactic(auto)]

ghost use Rattle.std.specs.Prelude.{◌≡◌};
ghost use Rattle.format.specs.Kinds.{rule_in};
ghost use Rattle.descent.specs.Vocabulary.{Searchable, asked_in};
ghost use Rattle.fields.specs.Counts.{counts_in};
ghost use Rattle.paths.specs.Paths.{AtNode, AtRow, DescentSays, HighestAt, OnPath, SoughtAt, WayOf, own_map};

use fields::Table;

// The offsets of the nodes that a question passes from the root on, how many they are, and the last of them.
#[derive(Clone, Copy)]
pub struct Descent {
    pub path: [u16; 202],
    pub len: usize,
    pub last: usize,
}

// The first child of the node at o whose symbol is not below s, or the end of its row where there is none. The row ends at `end`; `counts` is the
// part of the book that tells numbers of nodes. Each child tells where the next one stands, so no index is counted, and the loop is no `for`.
pub fn seek(table: Table<'_>, counts: &[u8], o: usize, end: usize, s: usize) -> usize
    requires { AtRow table.book.now (own_map table) counts.now o end }
    ensures { SoughtAt table.entry.book.now (own_map table.entry) o s result }
{
    let mut c = o + table.stride;
    while c < end {
        if s <= table.symbol(c) {
            return c;
        }
        c += table.nodes_in(counts, c) * table.stride;
    }
    c
}

// Where the question goes from the node at o: to the child with its symbol at that node's depth. It stays at a leaf, where the depth
// exceeds its length, and where no child fits. A leaf is told by its nodes, which end where its row would begin: the loop of `seek` asks the
// same first, so the compiler makes one test of the two.
fn child(table: Table<'_>, counts: &[u8], question: &[u8], o: usize) -> Option<usize>
    requires { AtNode table.book.now (own_map table) o × (counts.now ≡ counts_in table.step table.book.now) }
    ensures { WayOf table.entry.book.now (own_map table.entry) (asked_in table.entry.book.now question.now) o result }
{
    let end = o + table.nodes_in(counts, o) * table.stride;
    if end <= o + table.stride {
        return None;
    }
    let d = table.depth(o);
    if question.len() < d {
        return None;
    }
    let s = symbols::symbol_at(trailer::rule(table.book), question, 0, d);
    let c = seek(table, counts, o, end, s);
    if end <= c {
        return None;
    }
    if table.symbol(c) != s {
        return None;
    }
    Some(c)
}

// The way down from the root, which stands where the table starts.
pub fn descend(table: Table<'_>, question: &[u8]) -> Descent
    requires { Searchable (rule_in table.book.now) table.book.now (own_map table) }
    ensures { DescentSays table.entry.book.now (own_map table.entry) (asked_in table.entry.book.now question.now) result.path result.len result.last }
{
    let counts = table.part(fields::NODES);
    let start = trailer::nodes_at(table.book);
    let mut path = [0u16; 202];
    let mut n: usize = 1;
    let mut o = start;
    path[0] = start as u16;
    while let Some(c) = child(table, counts, question, o) {
        path[n] = c as u16;
        n += 1;
        o = c;
    }
    Descent {
        path,
        len: n,
        last: o,
    }
}

// The highest node of the path whose depth is at least `shared`, or the last. It is looked for from the end, where it mostly stands: depths
// rise along the path, so it is the first one that has a less deep node above it, or the root. The path is taken out of the struct, since
// the compiler copies it twice where it is indexed in there.
pub fn highest(table: Table<'_>, way: Descent, shared: usize) -> usize
    requires { OnPath table.book.now table.step way.path way.len }
    ensures { HighestAt table.entry.book.now table.entry.step way.path way.len shared result }
{
    let path = way.path;
    for j in (1..way.len).rev() {
        let above = usize::from(path[j - 1]);
        if table.depth(above) < shared {
            return usize::from(path[j]);
        }
    }
    usize::from(path[0])
}
