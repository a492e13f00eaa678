// The heads of two lists of names that read well. A list is gone through by the offset of its next record; the lesser of two heads is found
// by the comparison of names that all others use, and nothing is kept of a name but where it stands.
#![tactic(auto)]

ghost use Rattle.std.specs.Prelude.{◌≡◌, ◌+◌, ◌<◌, get_or, length};
ghost use Rattle.format.specs.Alone.{BothRead};
ghost use Rattle.answers.specs.Heads.{head_of};
ghost use Rattle.shapes.specs.Heads.{headed};
ghost use Rattle.heads.specs.Heads.{HeadAsk, HeadSays, OrderSays, head_in, list_number};
ghost use Rattle.heads.specs.Passing.{ListAsk, PassedTo};

use shapes::Head;
use std::cmp::Ordering;
use symbols::Rule;

// One of two lists.
#[derive(Clone, Copy, PartialEq, Eq)]
pub enum Side {
    First,
    Second,
}

impl Side {
    // The list's number in a head.
    fn number(self) -> usize
        ensures { result ≡ list_number self }
    {
        match self {
            Side::First => 1,
            Side::Second => 2,
        }
    }
}

// The lesser of two heads: the list that it stands in, where its record begins and how many bytes that has; and where either list goes on
// behind it.
#[derive(Clone, Copy)]
pub struct Next {
    pub side: Side,
    pub from: usize,
    pub size: usize,
    pub left: usize,
    pub right: usize,
}

// A head, by its numbers.
fn head_in(side: Side, from: usize, size: usize, left: usize, right: usize) -> Next
    ensures { result ≡ head_in side from size left right }
{
    Next {
        side,
        from,
        size,
        left,
        right,
    }
}

// How many bytes the record at an offset has, with its length byte.
fn record_size(list: &[u8], at: usize) -> usize
    requires { at < length list.now }
    ensures { result ≡ 1 + get_or list.now at 0 }
{
    1 + usize::from(list[at])
}

// Where a list goes on behind so many records; at its end, where it has no more. Linear in the records that are passed.
pub fn pass_records(list: &[u8], count: usize) -> usize
    requires { ListAsk list.now }
    ensures { PassedTo list.now count result }
{
    let mut at: usize = 0;
    for _ in 0..count {
        if at == list.len() {
            return at;
        }
        at += record_size(list, at);
    }
    at
}

// The head where there is none: an empty part of the first list.
pub fn no_head() -> Head
    ensures { headed result ≡ (1, 0, 0) }
{
    Head {
        list: 1,
        start: 0,
        length: 0,
    }
}

// How two names stand to each other.
fn order_of(x: &[u8], y: &[u8]) -> Ordering
    ensures { OrderSays x.now y.now result }
{
    let shares = symbols::shared_symbols(Rule::Plain, x, y);
    if symbols::is_above(Rule::Plain, x, y, shares) {
        return Ordering::Less;
    }
    if symbols::is_above(Rule::Plain, y, x, shares) {
        return Ordering::Greater;
    }
    Ordering::Equal
}

// The lesser of the heads at i and at j, in lists that have not both ended; of equal heads the first list's, and both lists go on.
pub fn next_head(first: &[u8], i: usize, second: &[u8], j: usize) -> Next
    requires { HeadAsk first.now i second.now j }
    ensures { HeadSays first.now i second.now j result }
{
    if i == first.len() {
        let size = record_size(second, j);
        let right = j + size;
        return head_in(Side::Second, j, size, i, right);
    }
    let size = record_size(first, i);
    let left = i + size;
    if j == second.len() {
        return head_in(Side::First, i, size, left, j);
    }
    let other = record_size(second, j);
    let right = j + other;
    let x = i + 1;
    let y = j + 1;
    match order_of(&first[x..left], &second[y..right]) {
        Ordering::Less => head_in(Side::First, i, size, left, j),
        Ordering::Greater => head_in(Side::Second, j, other, i, right),
        Ordering::Equal => head_in(Side::First, i, size, left, right),
    }
}

// The lesser head of two lists that read well, behind so many records of each.
pub fn head_judged(first: &[u8], second: &[u8], passed_first: usize, passed_second: usize) -> Head
    requires { BothRead first.now second.now }
    ensures { headed result ≡ head_of first.now second.now passed_first passed_second }
{
    let i = pass_records(first, passed_first);
    let j = pass_records(second, passed_second);
    if i + j == first.len() + second.len() {
        return no_head();
    }
    let next = next_head(first, i, second, j);
    let start = next.from + 1;
    let length = next.size - 1;
    Head {
        list: next.side.number(),
        start,
        length,
    }
}
