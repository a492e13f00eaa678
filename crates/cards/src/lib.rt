// The map of a worn card, and the verdict on each of its blocks: document 02, 'Books from a worn card'. The trailer and the block table are
// judged first, and no node record is looked at. Then each block is judged alone, by the function that the check of a book uses, from its
// own bytes and the number of its names.
#![tactic(auto)]

ghost use Rattle.std.specs.Prelude.{◌≡◌, true, ◌≤◌, get_or, length};
ghost use Rattle.format.specs.Book.{told};
ghost use Rattle.format.specs.Salvage.{Broken, block_count, bounds, from_zero, mapped};
ghost use Rattle.answers.specs.Salvage.{card_blocks, reported};
ghost use Rattle.shapes.specs.Salvage.{kept_row};
ghost use Rattle.kinds.specs.Known.{kind_by};
ghost use Rattle.cards.specs.Cards.{CardBlockAsk, PlainSays, SpanIs, Table, Verdicts, WholeAsk, WholeSays, names_of_block};

use entries::Name;
use kinds::Kind;
use notes::Notes;
use shapes::Kept;
use symbols::PlainRule;

// A block's span, and how many names it should have.
#[derive(Clone, Copy)]
pub struct Span {
    pub start: usize,
    pub end: usize,
    pub names: usize,
}

// Where block i begins; behind the last one, where the entries end.
fn bound(card: &[u8], i: usize) -> usize
    requires { Table card.now i }
    ensures { result ≡ get_or (bounds card.now) i 0 }
{
    let table = trailer::blocks_at(card);
    let slot = table + 2 * i;
    if slot == trailer::nodes_at(card) {
        return table;
    }
    numbers::number_at(card, slot)
}

// Whether the starts of so many blocks strictly rise from 0 on and lie before the block table.
fn starts_rise(card: &[u8], count: usize) -> bool
    requires { Table card.now count × (count ≡ block_count (told card.now 0) (told card.now 1)) }
    ensures { result ≡ from_zero (bounds card.now) }
{
    let mut at = bound(card, 0);
    if at != 0 {
        return false;
    }
    for i in 0..count {
        let next = bound(card, i + 1);
        if next <= at {
            return false;
        }
        at = next;
    }
    true
}

// How many blocks so many names take.
fn blocks_for(n: usize, k: usize) -> usize
    requires { (n ≤ 2000) × (1 ≤ k) × (k ≤ 64) }
    ensures { (result ≡ block_count n k) × (result ≤ 2000) }
{
    (n + (k - 1)) / k
}

// Whether a kind is the plain full book: no other has a map.
fn is_plain(kind: Kind) -> bool
    ensures { PlainSays (kind_by kind) result }
{
    kind == Kind::Plain
}

// Whether the trailer and the block table make sense.
pub fn is_mapped(card: &[u8]) -> bool
    ensures { result ≡ mapped card.now }
{
    if !trailer::is_trailer(card) {
        return false;
    }
    let t = trailer::read(card);
    let kind = t.kind;
    if !is_plain(kind) {
        return false;
    }
    let table = usize::from(t.blocks_at);
    let count = blocks_for(usize::from(t.names), usize::from(t.block));
    if table + 2 * count != usize::from(t.nodes_at) {
        return false;
    }
    starts_rise(card, count)
}

// How many blocks there are, where the map makes sense.
pub fn block_count(card: &[u8]) -> usize
    requires { mapped card.now ≡ true }
    ensures { (result ≡ length (card_blocks card.now)) × (result ≤ 2000) }
{
    let t = trailer::read(card);
    blocks_for(usize::from(t.names), usize::from(t.block))
}

// How many names block i should have.
fn names_in(card: &[u8], i: usize) -> usize
    requires { CardBlockAsk card.now i }
    ensures { result ≡ names_of_block card.now i }
{
    let t = trailer::read(card);
    let k = usize::from(t.block);
    let left = usize::from(t.names) - i * k;
    left.min(k)
}

// The span of block i.
pub fn span_of(card: &[u8], i: usize) -> Span
    requires { CardBlockAsk card.now i }
    ensures { SpanIs card.now i result.start result.end result.names }
{
    let start = bound(card, i);
    let end = bound(card, i + 1);
    Span {
        start,
        end,
        names: names_in(card, i),
    }
}

// Whether the entries of a block stand from its start to its end, judged alone. Its names are rebuilt in a lent one.
pub fn is_whole(card: &[u8], span: Span, name: &mut Name) -> bool
    requires { WholeAsk card.now span.start span.end }
    ensures { WholeSays card.now span.start span.end span.names result }
{
    runs::block_by::<PlainRule>(card, span.start, span.end, span.names, name)
}

// The report row of block i, by what was noted of all blocks.
pub fn row_of(card: &[u8], notes: &Notes, i: usize) -> Kept
    requires { CardBlockAsk card.now i × Verdicts card.now notes.now }
    ensures { kept_row result ≡ reported (get_or (card_blocks card.now) i Broken) }
{
    if !notes.has(i) {
        return Kept { kept: 0, names: 0 };
    }
    let names = names_in(card, i);
    Kept { kept: 1, names }
}
