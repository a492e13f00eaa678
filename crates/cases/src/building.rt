// The cases of `book_build` and of `book_build_folded`. A case is a head and then the list: of the head, 4 bytes have the list's length, 8 the
// block size and 4 the room's length.
ghost use Rattle.std.specs.Prelude.{ℕ, ◌≡◌, ◌≤◌, length, IfSome};
ghost use Rattle.cases.specs.Places.{CaseTaken};

use crate::files::Case;
use crate::parts::Parts;
use crate::rooms;
use crate::told::Written;
use book::Answer;
use std::io;
use std::io::Write;

const LONGEST_ROOM: usize = 70000;

// A list to build a book of.
#[derive(Clone, Copy)]
struct Building<'a> {
    list: &'a [u8],
    block: usize,
    // how many bytes the room has
    room: usize,
    ghost fits: { room ≤ 70000 },
}

impl<'a> Building<'a> {
    // A case that has too long a room is none.
    fn read(parts: &mut Parts<'a>) -> Option<Self>
        ensures { IfSome result (λ _. CaseTaken parts.old parts.new) }
    {
        let size = parts.four()?;
        let block = parts.eight()?;
        let room = parts.four_up_to(LONGEST_ROOM)?;
        let list = parts.take(size)?;
        Some(Building { list, block, room })
    }

    // Builds in a room that is filled, by a call: what it counts where it accepts stands in its room.
    fn print<W: Write, B: Fn(&[u8], usize, &mut [u8]) -> Answer>(
        self,
        out: &mut W,
        number: usize,
        build: B,
    ) -> io::Result<()>
        requires callable { B.IsAlwaysCallable build }
        requires within { (list : _) (block : ℕ) (room : _) (answer : Answer) (after : _) → B.post build list block room answer after →
            answer.code ≡ 0 → answer.first ≤ length after.now }
    {
        let mut space = [0u8; LONGEST_ROOM];
        let room = &mut space[..self.room];
        rooms::fill(room);
        let answer = build(self.list, self.block, room);
        writeln!(out, "{number} {}", Written::new(answer, room))
    }
}

// A list to build a plain book of.
#[derive(Clone, Copy)]
pub struct Plain<'a>(Building<'a>);

impl<'a> Case<'a> for Plain<'a> {
    fn read(parts: &mut Parts<'a>) -> Option<Self> {
        Some(Plain(Building::read(parts)?))
    }

    fn print<W: Write>(self, out: &mut W, number: usize) -> io::Result<()> {
        self.0.print(out, number, book::book_build)
    }
}

// A list to build a folded book of.
#[derive(Clone, Copy)]
pub struct Folded<'a>(Building<'a>);

impl<'a> Case<'a> for Folded<'a> {
    fn read(parts: &mut Parts<'a>) -> Option<Self> {
        Some(Folded(Building::read(parts)?))
    }

    fn print<W: Write>(self, out: &mut W, number: usize) -> io::Result<()> {
        self.0.print(out, number, book::book_build_folded)
    }
}
