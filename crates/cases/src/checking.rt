// The cases of `book_check`. A case is 4 bytes with the length of a book, and then the book.
use crate::files::Case;
use crate::parts::Parts;
use crate::told::Told;
use std::io;
use std::io::Write;

// A book to check.
#[derive(Clone, Copy)]
pub struct Checking<'a> {
    book: &'a [u8],
}

impl<'a> Case<'a> for Checking<'a> {
    fn read(parts: &mut Parts<'a>) -> Option<Self> {
        let size = parts.four()?;
        let book = parts.take(size)?;
        Some(Checking { book })
    }

    fn print<W: Write>(self, out: &mut W, number: usize) -> io::Result<()> {
        writeln!(out, "{number} {}", Told(book::book_check(self.book)))
    }
}
