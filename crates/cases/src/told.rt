// What a case's line tells: numbers, with one space between two.
ghost use Rattle.std.specs.Prelude.{◌≡◌, ◌≤◌, length};

use crate::sums::Sums;
use book::{Answer, Counted, Head};
use std::fmt;

// A struct of numbers, to be printed.
#[derive(Clone, Copy)]
pub struct Told<T>(pub T);

impl fmt::Display for Told<Answer> {
    fn fmt<W: fmt::Write>(&self, f: &mut fmt::Formatter<W>) -> fmt::Result {
        let answer = self.0;
        write!(f, "{} {} {}", answer.code, answer.first, answer.second)
    }
}

impl fmt::Display for Told<Counted> {
    fn fmt<W: fmt::Write>(&self, f: &mut fmt::Formatter<W>) -> fmt::Result {
        let counted = self.0;
        write!(
            f,
            "{} {} {} {} {}",
            counted.code, counted.first, counted.second, counted.visits, counted.entries
        )
    }
}

impl fmt::Display for Told<Head> {
    fn fmt<W: fmt::Write>(&self, f: &mut fmt::Formatter<W>) -> fmt::Result {
        let head = self.0;
        write!(f, "{} {} {}", head.list, head.start, head.length)
    }
}

// What a call gave that writes to a room: its answer, the checksum of the bytes that the answer counts at the room's front, of none where the
// call refuses, and that of the whole room.
#[derive(Clone, Copy)]
pub struct Written {
    answer: Answer,
    front: Sums,
    room: Sums,
}

impl Written {
    pub fn new(answer: Answer, room: &[u8]) -> Self
        requires { answer.code ≡ 0 → answer.first ≤ length room.now }
    {
        let counted = if answer.code == 0 { answer.first } else { 0 };
        Written {
            answer,
            front: Sums::of(&room[..counted]),
            room: Sums::of(room),
        }
    }
}

impl fmt::Display for Written {
    fn fmt<W: fmt::Write>(&self, f: &mut fmt::Formatter<W>) -> fmt::Result {
        write!(f, "{} {} {}", Told(self.answer), self.front, self.room)
    }
}
