// What crosses the public calls: the answer that they give, the row of a batch that they take, the head of a list and the row of a
// salvage's report. A part above the book that has one of them in its hands lists this crate beside `book`; so nothing here asks
// anything of its caller. Kinds, codes and lists are numbers in these, and no enums, since C reads and writes them.
#![tactic(auto)]

ghost use Rattle.std.specs.Prelude.{◌≡◌};
ghost use Rattle.refusals.specs.Refusals.{said};
ghost use Rattle.shapes.specs.Shapes.{answered, counted};
ghost use Rattle.shapes.specs.Endings.{looked_at_nothing, outcome};

use refusals::Refusal;

// 0 or the number of a refusal, and two numbers beside it.
#[repr(C)]
#[derive(Clone, Copy)]
pub struct Answer {
    pub code: usize,
    pub first: usize,
    pub second: usize,
}

// A refusal as an answer: its number, and the number beside it.
impl From<Refusal> for Answer {
    ghost from_gives = { λ refusal answer. answered answer ≡ said refusal };

    fn from(refusal: Refusal) -> Answer {
        Answer {
            code: refusal.code(),
            first: refusal.beside(),
            second: 0,
        }
    }
}

// How a writing ended, as an answer: how many bytes were written, or why it refused.
impl From<Result<usize, Refusal>> for Answer {
    ghost from_gives = { λ ending answer. answered answer ≡ outcome ending };

    fn from(ending: Result<usize, Refusal>) -> Answer {
        match ending {
            Ok(bytes) => Answer {
                code: 0,
                first: bytes,
                second: 0,
            },
            Err(refusal) => Answer::from(refusal),
        }
    }
}

// What a single question gives: 0 or the number of a refusal, two numbers, and how far it looked: the nodes that it visited going down, and
// the entries that were read to rebuild the one name compared.
#[repr(C)]
#[derive(Clone, Copy)]
pub struct Counted {
    pub code: usize,
    pub first: usize,
    pub second: usize,
    pub visits: usize,
    pub entries: usize,
}

// A refusal of a single question, where nothing was looked at.
impl From<Refusal> for Counted {
    ghost from_gives = { λ refusal answer. counted answer ≡ looked_at_nothing refusal };

    fn from(refusal: Refusal) -> Counted {
        Counted {
            code: refusal.code(),
            first: refusal.beside(),
            second: 0,
            visits: 0,
            entries: 0,
        }
    }
}

// A question of a batch: its kind, and where it stands in the buffer.
#[repr(C)]
#[derive(Clone, Copy)]
pub struct Row {
    pub kind: usize,
    pub start: usize,
    pub length: usize,
}

// The lesser of the heads of two lists: its list, 1 or 2, where its name begins there, behind the length byte, and the name's length.
#[repr(C)]
#[derive(Clone, Copy)]
pub struct Head {
    pub list: usize,
    pub start: usize,
    pub length: usize,
}

// A row of a salvage's report: 1 and how many names were written where its block is kept; 0 and 0 where it is dropped.
#[repr(C)]
#[derive(Clone, Copy)]
pub struct Kept {
    pub kept: usize,
    pub names: usize,
}
