// The node table, written from its end: going back over the names, each name's leaf comes first, and in front of it every node that
// begins with that name, deepest first. So a node's record is written when all of its row stands behind it, and one pass with a stack
// of open nodes (`frames`) does it, whatever the depth of the tree. In a room that is too short it only counts. Of a name the writer takes
// the bytes from number `skip` on: those that the name shares with the one before it lead to no node that begins with it. Only
// `write_nodes` knows that they stand in a list.
#![tactic(auto)]

ghost use Rattle.std.specs.Prelude.{◌≡◌, suc, pred, ◌+◌, ◌-◌, ◌<◌, ◌≤◌, length, get_or};
ghost use Rattle.words.specs.Words.{word};
ghost use Rattle.symbols.specs.Rules.{rule_by};
ghost use Rattle.fields.specs.Node.{node_of};
ghost use Rattle.records.specs.Notes.{lens_of, shares_of};
ghost use Rattle.nodes.specs.Open.{symbol_of};
ghost use Rattle.nodes.specs.Writing.{LeafPut, NameAsk, NamePut, CloseAsk, NodePut, NodesAsk, NodesPut, PutBack};

use frames::{LeftOpen, Stack};
use records::Note;
use symbols::Rule;

// The name at hand: its bytes from number `skip` on, by which rule they are symbols, its number, and how it stands to the name before
// (`left_of`).
#[derive(Clone, Copy)]
struct Piece<'a> {
    rule: Rule,
    rest: &'a [u8],
    skip: usize,
    index: usize,
    left: usize,
}

impl<'a> Piece<'a> {
    // What leads to a node from a parent whose depth is p - 1: symbol number p - 1 of a name that the node holds; 0 where p is 0, for the root.
    // The end symbol is 0, too: the compiler makes one test of both, and then `symbol_at` has none left.
    fn symbol_of(&self, p: usize) -> usize
        requires { (self.now.skip ≤ pred p) × (self.now.skip + length self.now.rest.now ≤ 200) }
        ensures { result ≡ symbol_of (p - self.now.skip) (word (rule_by self.now.rule) self.now.rest.now) }
    {
        if p == 0 {
            return 0;
        }
        if self.skip + self.rest.len() < p {
            return 0;
        }
        symbols::symbol_at(self.rule, self.rest, self.skip, p - 1)
    }
}

// A record in front of the w records at the end of the room, where there is place for it.
fn put_back(room: &mut [u8], w: usize, node: fields::Node)
    requires { w ≤ 4000 }
    ensures { PutBack room.old room.new w (node_of node) }
{
    let size = (w + 1) * fields::SIZE;
    if room.len() < size {
        return;
    }
    let a = room.len() - size;
    let b = a + fields::SIZE;
    fields::put_node(&mut room[a..b], node);
}

// How name j stands to the one before: one more than what they share, and 0 for the first name.
pub fn left_of(notes: &[Note], j: usize) -> usize
    requires { j < length notes.now }
    ensures { ((j ≡ 0) → (result ≡ 0)) × ((0 < j) → (result ≡ suc (get_or (shares_of notes.now) j 0))) }
{
    let noted = usize::from(notes[j].share) + 1;
    if j == 0 { 0 } else { noted }
}

// The leaf of a name.
fn put_leaf(name: &Piece, stack: &Stack, top: usize, count: usize, room: &mut [u8]) -> LeftOpen
    requires { NameAsk (rule_by name.now.rule) name.now.rest.now name.now.skip name.now.index name.now.left stack.now top count room.old }
    ensures { LeafPut (rule_by name.now.rule) name.now.rest.now name.now.skip name.now.index name.now.left stack.now top count room.old result room.new }
{
    let p = name.left.max(usize::from(stack.frame(top).depth));
    let length = name.skip + name.rest.len();
    let node = fields::Node {
        symbol: name.symbol_of(p),
        depth: length + 1,
        first: name.index,
        names: 1,
        nodes: 1,
        width: length,
    };
    put_back(room, count, node);
    LeftOpen {
        top,
        count: count + 1,
        end: name.index + 1,
        mark: count,
        width: length,
    }
}

// The node of the top frame of those that are left, which begins with the name.
fn close_node(name: &Piece, stack: &Stack, p: LeftOpen, room: &mut [u8]) -> LeftOpen
    requires { CloseAsk (rule_by name.now.rule) name.now.rest.now name.now.skip name.now.index name.now.left stack.now p room.old }
    ensures { NodePut (rule_by name.now.rule) name.now.rest.now name.now.skip name.now.index name.now.left stack.now p room.old result room.new }
{
    let frame = stack.frame(p.top);
    let parent = stack.frame(p.top - 1);
    let end = usize::from(frame.end);
    let mark = usize::from(frame.mark);
    let width = p.width.max(usize::from(frame.width));
    let q = name.left.max(usize::from(parent.depth));
    let node = fields::Node {
        symbol: name.symbol_of(q),
        depth: usize::from(frame.depth) - 1,
        first: name.index,
        names: end - name.index,
        nodes: p.count - mark + 1,
        width,
    };
    put_back(room, p.count, node);
    LeftOpen {
        top: p.top - 1,
        count: p.count + 1,
        end,
        mark,
        width,
    }
}

// The leaf of a name, and in front of it each node that begins with the name: those of the frames that are deeper than `left`. The frames tell
// when it ends, so the loop is no `for`.
fn write_name(name: &Piece, stack: &Stack, top: usize, count: usize, room: &mut [u8]) -> LeftOpen
    requires { NameAsk (rule_by name.now.rule) name.now.rest.now name.now.skip name.now.index name.now.left stack.now top count room.old }
    ensures { NamePut (rule_by name.now.rule) name.now.rest.now name.now.skip name.now.index name.now.left stack.now top count room.old result room.new }
{
    let mut p = put_leaf(name, stack, top, count, room);
    while name.left < usize::from(stack.frame(p.top).depth) {
        p = close_node(name, stack, p, room);
    }
    p
}

// The node table, where the room is as long; and the number of nodes.
pub fn write_nodes(rule: Rule, list: &[u8], n: usize, notes: &[Note], room: &mut [u8]) -> usize
    requires { NodesAsk (rule_by rule) list.now n (lens_of notes.now) (shares_of notes.now) }
    ensures { NodesPut (rule_by rule) list.now room.old room.new result }
{
    let mut stack = Stack::new();
    let mut top: usize = 0;
    let mut count: usize = 0;
    let mut end = list.len();
    for j in (0..n).rev() {
        let from = end - usize::from(notes[j].len);
        let name = Piece {
            rule,
            rest: &list[from..end],
            skip: 0,
            index: j,
            left: left_of(notes, j),
        };
        let p = write_name(&name, &stack, top, count, room);
        end = from - 1;
        count = p.count;
        if usize::from(stack.frame(p.top).depth) < name.left {
            stack.push(name.left, p);
            top = p.top + 1;
        } else {
            stack.raise(p);
            top = p.top;
        }
    }
    count
}
