// The cases of the five questions. A case is a head, then a book and a question: of the head, 4 bytes have the book's length and 4 the
// question's. Where the book's length is 0, the book is that of the case before.
use crate::files::Case;
use crate::parts::Parts;
use crate::told::Told;
use std::io;
use std::io::Write;

// A book and a question to it.
#[derive(Clone, Copy)]
pub struct Asking<'a> {
    book: &'a [u8],
    question: &'a [u8],
}

impl<'a> Case<'a> for Asking<'a> {
    fn read(parts: &mut Parts<'a>) -> Option<Self> {
        let size = parts.four()?;
        let asked = parts.four()?;
        let book = parts.book(size)?;
        let question = parts.take(asked)?;
        Some(Asking { book, question })
    }

    // Asks in all five kinds, and prints each answer with how far it looked.
    fn print<W: Write>(self, out: &mut W, number: usize) -> io::Result<()> {
        let Asking { book, question } = self;
        let exact = Told(book::book_exact(book, question));
        let place = Told(book::book_place(book, question));
        let range = Told(book::book_range(book, question));
        let nearest = Told(book::book_nearest(book, question));
        let width = Told(book::book_width(book, question));
        writeln!(out, "{number} {exact} {place} {range} {nearest} {width}")
    }
}
