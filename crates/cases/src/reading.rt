// The cases of `book_read`. A case is a head and then a book: of the head, 4 bytes have the book's length, 8 the position and 4 the room's
// length. Where the book's length is 0, the book is that of the case before.
ghost use Rattle.std.specs.Prelude.{◌≤◌};

use crate::files::Case;
use crate::parts::Parts;
use crate::rooms;
use crate::told::Written;
use std::io;
use std::io::Write;

const LONGEST_ROOM: usize = 1000;

// A name to read back.
#[derive(Clone, Copy)]
pub struct Reading<'a> {
    book: &'a [u8],
    position: usize,
    // how many bytes the room has
    room: usize,
    ghost fits: { room ≤ 1000 },
}

impl<'a> Case<'a> for Reading<'a> {
    // A case that has too long a room is none.
    fn read(parts: &mut Parts<'a>) -> Option<Self> {
        let size = parts.four()?;
        let position = parts.eight()?;
        let room = parts.four_up_to(LONGEST_ROOM)?;
        let book = parts.book(size)?;
        Some(Reading {
            book,
            position,
            room,
        })
    }

    // Reads into a room that is filled.
    fn print<W: Write>(self, out: &mut W, number: usize) -> io::Result<()> {
        let mut space = [0u8; LONGEST_ROOM];
        let room = &mut space[..self.room];
        rooms::fill(room);
        let answer = book::book_read(self.book, self.position, room);
        writeln!(out, "{number} {}", Written::new(answer, room))
    }
}
