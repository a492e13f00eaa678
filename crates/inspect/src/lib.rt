// The check of a node table. It holds no name: the walk over the entries, which comes first, has judged them. What one record says is looked
// at in `looks`; here is how nodes stand in rows, and the whole table. A node is told by the offset of its first number.
#![tactic(auto)]

ghost use Rattle.std.specs.Prelude.{◌≡◌};
ghost use Rattle.standing.specs.Maps.{record_at};
ghost use Rattle.inspect.specs.Check.{NodeAsk, NodeSays, TableAsk, is_nodes};

use fields::Table;

// The node at an offset, which is no leaf and whose nodes end at `end`; the first one's entry stands at a. Where the entry of its last
// name stands, and 65,536 times its own offset; or 0, where no node of several names ends there. What led to it and its first name is its
// row's to ask. As an option of a struct of the two it would go through memory: 160 bytes of stack a level for 128, and 316,380 instructions
// for 304,603 on 1,800 stations. The table is handed down as its three parts, since a struct goes through memory at every level, too.
#[cycle(check_node_check_row)]
fn check_node(book: &[u8], stride: usize, step: usize, o: usize, end: usize, a: usize) -> usize
    requires { NodeAsk book.now stride step o end a }
    ensures { NodeSays book.now stride step o end result }
{
    let table = Table { book, stride, step };
    let d = table.depth(o);
    let lo = table.first(o);
    check_row(book, stride, step, o, end, lo, d, a)
}

// The same by its row of children, where its first name is number lo and its depth is d. What a child's record says of its width is held
// to its names where the child is looked at, so the greatest of them is the row's. Two neighbours in the row part at d where they share d
// symbols at least and the records that lead to them have different symbols. The names run out where the entries do. What is kept while a
// child is looked at costs stack at every level, so a child's own offset comes back with its verdict, and its record is read again there;
// and a stored count that is d, which says that neighbours share d symbols, is asked for in the inner loop, the rest outside of it.
#[cycle(check_node_check_row)]
fn check_row(
    book: &[u8],
    stride: usize,
    step: usize,
    o: usize,
    end: usize,
    lo: usize,
    d: usize,
    a: usize,
) -> usize
    requires { NodeAsk book.now stride step o end a × (lo ≡ (record_at step book.now o).first) × (d ≡ (record_at step book.now o).depth) }
    ensures { NodeSays book.now stride step o end result }
{
    let table = Table { book, stride, step };
    let mut first = lo;
    let mut child = o + stride;
    let mut entry = a;
    let mut greatest = 0;
    if end <= child {
        return 0;
    }
    let mut before = entry;
    loop {
        loop {
            if !looks::is_led_to(table, child, first, d, entry) {
                return 0;
            }
            let mut led = table.symbol(child);
            greatest = greatest.max(table.width(child));
            if table.names(child) == 1 {
                if !looks::is_leaf(table, child, entry) {
                    return 0;
                }
                first += 1;
                child += stride;
            } else {
                if !looks::may_be_fork(table, o, child, end, d) {
                    return 0;
                }
                let next = child + table.nodes(child) * stride;
                let found = check_node(book, stride, step, child, next, entry);
                if found == 0 {
                    return 0;
                }
                entry = found % 65536;
                let own = found / 65536;
                led = table.symbol(own);
                first = table.first(own) + table.names(own);
                child = own + table.nodes(own) * stride;
            }
            if end <= child {
                if first != table.first(o) + table.names(o) {
                    return 0;
                }
                if greatest != table.width(o) {
                    return 0;
                }
                return entry + 65536 * o;
            }
            if table.symbol(child) == led {
                return 0;
            }
            before = entry;
            entry = neighbours::next_entry(book, before);
            if trailer::blocks_at(book) <= entry {
                return 0;
            }
            if usize::from(book[entry]) != d {
                break;
            }
        }
        entry = neighbours::part_at(book, before, entry, first, d);
        if entry == 0 {
            return 0;
        }
    }
}

// Whether the bytes from start to end are the node table of the n names that the entries are read as.
pub fn check_table(book: &[u8], start: usize, end: usize, n: usize) -> bool
    requires { TableAsk book.now start end n }
    ensures { result ≡ is_nodes book.now start end }
{
    if n == 0 {
        return start == end;
    }
    if end - start < fields::SIZE {
        return false;
    }
    let table = trailer::table_of(book);
    if table.symbol(start) != 0 {
        return false;
    }
    if table.first(start) != 0 {
        return false;
    }
    if table.names(start) != n {
        return false;
    }
    let nodes = table.nodes(start);
    if start + nodes * fields::SIZE != end {
        return false;
    }
    if n == 1 {
        return looks::is_leaf(table, start, 0);
    }
    check_node(
        book,
        table.stride,
        table.step,
        start,
        start + nodes * table.stride,
        0,
    ) != 0
}
