// Where a question ends in the tree of a book's names, which are gone through in order: of the tree only its right edge is kept, the forks that
// are still open. Each has a depth, a first name, and the name where the question ends as far as the fork's finished children tell. No tree and
// no second name is held.
#![tactic(auto)]

ghost use Rattle.std.specs.Prelude.{◌≤◌, length, ◌≡◌};
ghost use Rattle.words.specs.Words.{plain, word};
ghost use Rattle.answers.specs.Questions.{reached};
ghost use Rattle.thin.specs.Frames.{Ends, ReachAsk, TopSays, words_by};
ghost use Rattle.thin.specs.Forks.{CloseIn, ClosedIn, GrowIn, GrownIn, depths_of};

use entries::{Cursor, Name};
use symbols::Rule;

// An open fork: its depth, its first name, and the name where the question ends in its finished children.
#[derive(Clone, Copy)]
pub struct Fork {
    depth: u8,
    first: u16,
    reach: u16,
}

// What is left when forks have ended: how many are still open; the first name of what ended last, and where the question ends in it.
#[derive(Clone, Copy)]
pub struct Closed {
    pub forks: usize,
    pub first: u16,
    pub reach: u16,
}

// The right edge: the forks that are open, the deepest last. No two have the same depth, so there is a place for each depth.
#[derive(Drop)]
pub struct RightEdge {
    forks: [Fork; 200],
    count: usize,
}

// Where the question ends in a fork of that depth: in its open child, where the name at hand, which is of that child, goes the question's way
// there; else where it did before.
fn ends(question: &[u8], name: &[u8], d: usize, child: u16, before: u16) -> u16
    ensures { Ends (word plain question.now) (word plain name.now) d child before result }
{
    if question.len() < d {
        return before;
    }
    let s = symbols::symbol_at(Rule::Plain, name, 0, d);
    if s != symbols::symbol_at(Rule::Plain, question, 0, d) {
        return before;
    }
    child
}

impl RightEdge {
    // No fork is open yet.
    fn new() -> Self
        ensures { (result.count ≡ 0) × (length result.forks ≡ 200) }
    {
        let none = Fork {
            depth: 0,
            first: 0,
            reach: 0,
        };
        RightEdge {
            forks: [none; 200],
            count: 0,
        }
    }

    // The forks whose depth is not below `limit` end with the last name, which is at hand: the deepest first, each with its open child. The book is
    // handed down for what is promised of its names alone.
    fn close(&self, book: &[u8], question: &[u8], name: &[u8], last: u16, limit: usize) -> Closed
        requires { CloseIn book.now question.now name.now self.now last limit }
        ensures { ClosedIn book.now question.now self.now last limit result }
    {
        let mut first = last;
        let mut reach = last;
        for top in (0..self.count).rev() {
            let fork = self.forks[top];
            let d = usize::from(fork.depth);
            if d < limit {
                return Closed {
                    forks: top + 1,
                    first,
                    reach,
                };
            }
            reach = ends(question, name, d, reach, fork.reach);
            first = fork.first;
        }
        Closed {
            forks: 0,
            first,
            reach,
        }
    }

    // Whether there is an open fork, and the deepest one has depth h. By hand, and not by `last` and `is_some_and`: what the closure says of a fork
    // is not seen where its answer is promised.
    fn is_deepest(&self, h: usize) -> bool
        requires { self.now.count ≤ length self.now.forks }
        ensures { TopSays (depths_of self.now.forks) self.now.count h result }
    {
        if self.count == 0 {
            return false;
        }
        usize::from(self.forks[self.count - 1].depth) == h
    }

    // The name behind the one at hand comes in, which shares h symbols with it: forks that are deeper end, and what has ended is a child of the
    // fork of depth h, which is the deepest one that is left, or is opened.
    fn grow(&mut self, book: &[u8], question: &[u8], name: &[u8], last: u16, h: usize)
        requires { GrowIn book.now question.now name.now self.old last h }
        ensures { GrownIn book.now question.now self.new last }
    {
        let ended = self.close(book, question, name, last, h + 1);
        self.count = ended.forks;
        if self.is_deepest(h) {
            let top = ended.forks - 1;
            let before = self.forks[top].reach;
            self.forks[top].reach = ends(question, name, h, ended.reach, before);
            return;
        }
        self.forks[ended.forks] = Fork {
            depth: h as u8,
            first: ended.first,
            reach: ends(question, name, h, ended.reach, ended.first),
        };
        self.count = ended.forks + 1;
    }
}

// The position that a question reaches in the tree of the names, of which there are n, and one at least. Each entry is read once.
pub fn reach(book: &[u8], n: usize, question: &[u8]) -> usize
    requires { ReachAsk book.now n }
    ensures { result ≡ reached (word plain question.now) (words_by book.now) }
{
    let mut edge = RightEdge::new();
    let mut name = Name::new();
    let front = Cursor { at: 0 };
    let mut cur = front.read(book, &mut name);
    for i in 1..n {
        let h = neighbours::shared_ahead(Rule::Plain, book, cur.at, name.bytes());
        edge.grow(book, question, name.bytes(), (i - 1) as u16, h);
        cur = cur.read(book, &mut name);
    }
    let ended = edge.close(book, question, name.bytes(), (n - 1) as u16, 0);
    usize::from(ended.reach)
}
