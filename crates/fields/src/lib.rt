// A node's record in a book: its numbers, read one by one, and all of them written. How many bytes it has, and where in it a number
// stands, is known here and nowhere else.
#![tactic(auto)]

ghost use Rattle.std.specs.Prelude.{◌≡◌, ◌*◌, ◌<◌, ◌≤◌, suc, drop, get_or, length};
ghost use Rattle.format.specs.Book.{numbers};
ghost use Rattle.format.specs.Nodes.{field_count, node_size, fields};
ghost use Rattle.standing.specs.Maps.{Roomy, record_at};
ghost use Rattle.fields.specs.Counts.{counts_in};
ghost use Rattle.fields.specs.Node.{node_of};

// How many bytes a record has.
pub const SIZE: usize = 12;

// How many bytes of a record that stands in one piece each of its numbers takes.
pub const STEP: usize = 2;

// Which of a record's numbers tells how many nodes there are.
pub const NODES: usize = 4;

// A node's numbers, in the record's order.
#[derive(Clone, Copy)]
pub struct Node {
    pub symbol: usize,
    pub depth: usize,
    pub first: usize,
    pub names: usize,
    pub nodes: usize,
    pub width: usize,
}

// A node table as it stands in a book: how many bytes it is from a node to the next, and from a number of a node to its next one. A node is
// told by the offset of its first number.
#[derive(Clone, Copy)]
pub struct Table<'a> {
    pub book: &'a [u8],
    pub stride: usize,
    pub step: usize,
}

impl<'a> Table<'a> {
    // Field number j of the node at an offset.
    fn field(self, at: usize, j: usize) -> usize
        requires { Roomy self.step self.book.now at × (j < field_count) }
        ensures { (result ≡ get_or (fields (record_at self.entry.step self.entry.book.now at)) j 0) × (result < 65536) }
    {
        numbers::number_at(self.book, at + j * self.step)
    }

    // Field number j + 1. A processor adds one, two or four steps to a place as it reads, but not three or five: those fields are read from
    // the number behind the first on.
    fn field_on(self, at: usize, j: usize) -> usize
        requires { Roomy self.step self.book.now at × (suc j < field_count) }
        ensures { (result ≡ get_or (fields (record_at self.entry.step self.entry.book.now at)) (suc j) 0) × (result < 65536) }
    {
        let on = at + self.step;
        numbers::number_at(&self.book[on..], j * self.step)
    }

    pub fn symbol(self, at: usize) -> usize
        requires { Roomy self.step self.book.now at }
        ensures { (result ≡ (record_at self.entry.step self.entry.book.now at).symbol) × (result < 65536) }
    {
        self.field(at, 0)
    }

    pub fn depth(self, at: usize) -> usize
        requires { Roomy self.step self.book.now at }
        ensures { (result ≡ (record_at self.entry.step self.entry.book.now at).depth) × (result < 65536) }
    {
        self.field(at, 1)
    }

    pub fn first(self, at: usize) -> usize
        requires { Roomy self.step self.book.now at }
        ensures { (result ≡ (record_at self.entry.step self.entry.book.now at).first) × (result < 65536) }
    {
        self.field(at, 2)
    }

    pub fn names(self, at: usize) -> usize
        requires { Roomy self.step self.book.now at }
        ensures { (result ≡ (record_at self.entry.step self.entry.book.now at).names) × (result < 65536) }
    {
        self.field_on(at, 2)
    }

    pub fn nodes(self, at: usize) -> usize
        requires { Roomy self.step self.book.now at }
        ensures { (result ≡ (record_at self.entry.step self.entry.book.now at).nodes) × (result < 65536) }
    {
        self.field(at, NODES)
    }

    pub fn width(self, at: usize) -> usize
        requires { Roomy self.step self.book.now at }
        ensures { (result ≡ (record_at self.entry.step self.entry.book.now at).width) × (result < 65536) }
    {
        self.field_on(at, 4)
    }

    // The part of the book that begins with number j of the node that would stand at 0. Who reads one number of many nodes cuts it once, and no
    // step is added where one is read.
    pub fn part(self, j: usize) -> &'a [u8]
        requires { j * self.step ≤ length self.book.now }
        ensures { result.now ≡ drop (j * self.entry.step) self.entry.book.now }
    {
        &self.book[j * self.step..]
    }

    // The number of nodes of the node at an offset, read in the part that begins with such numbers.
    pub fn nodes_in(self, counts: &[u8], at: usize) -> usize
        requires { Roomy self.step self.book.now at × (counts.now ≡ counts_in self.step self.book.now) }
        ensures { (result ≡ (record_at self.entry.step self.entry.book.now at).nodes) × (result < 65536) }
    {
        numbers::number_at(counts, at)
    }
}

// A node's record, in a part that is as long.
pub fn put_node(part: &mut [u8], node: Node)
    requires { length part.old ≡ node_size }
    ensures { part.new ≡ numbers (fields (node_of node)) }
{
    let fields = [
        node.symbol,
        node.depth,
        node.first,
        node.names,
        node.nodes,
        node.width,
    ];
    numbers::put_numbers(part, &fields);
}
