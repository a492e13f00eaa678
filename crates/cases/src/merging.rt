// The cases of the calls over two lists, all four of them in each case. A case is a head and then the lists: of the head, 4 bytes have the
// first list's length, 4 the room's, 8 and 8 how many records of the first and of the second list have been passed, and 4 the second
// list's length.
ghost use Rattle.std.specs.Prelude.{◌≤◌};

use crate::files::Case;
use crate::parts::Parts;
use crate::rooms;
use crate::sums::Sums;
use crate::told::{Told, Written};
use std::io;
use std::io::Write;

const LONGEST_ROOM: usize = 70000;

// Two lists, how many records of either have been passed, and how many bytes the room has.
#[derive(Clone, Copy)]
pub struct Merging<'a> {
    first: &'a [u8],
    second: &'a [u8],
    passed_first: usize,
    passed_second: usize,
    room: usize,
    ghost fits: { room ≤ 70000 },
}

impl<'a> Case<'a> for Merging<'a> {
    // A case that has too long a room is none.
    fn read(parts: &mut Parts<'a>) -> Option<Self> {
        let size = parts.four()?;
        let room = parts.four_up_to(LONGEST_ROOM)?;
        let passed_first = parts.eight()?;
        let passed_second = parts.eight()?;
        let other = parts.four()?;
        let first = parts.take(size)?;
        let second = parts.take(other)?;
        Some(Merging {
            first,
            second,
            passed_first,
            passed_second,
            room,
        })
    }

    // Merges in a room that is filled, judges, and steps.
    fn print<W: Write>(self, out: &mut W, number: usize) -> io::Result<()> {
        let Merging {
            first,
            second,
            passed_first,
            passed_second,
            room: size,
        } = self;
        let mut space = [0u8; LONGEST_ROOM];
        let room = &mut space[..size];
        rooms::fill(room);
        let merged = Written::new(book::list_merge(first, second, room), room);
        let judged = Told(book::list_judge(first, second));
        let head = Told(book::list_head(first, second, passed_first, passed_second));
        let part = Sums::of(book::list_step(first, second, passed_first, passed_second));
        writeln!(out, "{number} {merged} {judged} {head} {part}")
    }
}
