// The cases of `book_batch`. A case is a head, then a book, a question buffer and rows: of the head, 4 bytes each have the book's length,
// the buffer's, how many rows there are and how many places for answers; a row is three numbers of 8 bytes. Where the book's length is 0,
// the book is that of the case before.
ghost use Rattle.std.specs.Prelude.{◌≡◌, ◌≤◌, ◌<◌, take, IfSome};
ghost use Rattle.cases.specs.Places.{CasePlaced};

use crate::files::Case;
use crate::parts::Parts;
use crate::sums::Sums;
use crate::told::Told;
use book::{Answer, Row};
use std::io;
use std::io::Write;

// As many rows as there can be in a case, and as many places: one more than a batch takes.
const MOST: usize = 65;

// The rows of a case.
#[derive(Clone, Copy)]
struct Rows {
    array: [Row; MOST],
    count: usize,
    ghost fits: { count ≤ 65 },
}

impl Rows {
    // Reads so many.
    fn read(parts: &mut Parts<'_>, count: usize) -> Option<Self>
        requires { count ≤ 65 }
        ensures { IfSome result (λ _. CasePlaced parts.old parts.new) }
    {
        let zeros = Row {
            kind: 0,
            start: 0,
            length: 0,
        };
        let mut array = [zeros; MOST];
        for row in &mut array[..count] {
            let kind = parts.eight()?;
            let start = parts.eight()?;
            let length = parts.eight()?;
            *row = Row {
                kind,
                start,
                length,
            };
        }
        Some(Rows { array, count })
    }

    fn as_slice(&self) -> &[Row]
        ensures { result.now ≡ take self.now.count self.now.array }
    {
        &self.array[..self.count]
    }
}

// A book, a question buffer, the rows, and how many of the places for answers are lent.
#[derive(Clone, Copy)]
pub struct Batching<'a> {
    book: &'a [u8],
    questions: &'a [u8],
    rows: Rows,
    lent: usize,
    ghost fits: { lent ≤ 65 },
}

// Answers that no call gives, each another, so that a row that a call should not have touched shows.
fn unset() -> [Answer; MOST] {
    std::array::from_fn(
        |i|
            requires { i < 65 }
        {
            Answer {
                code: 100 + i,
                first: 200 + i,
                second: 300 + i,
            }
        },
    )
}

// The checksum of all numbers of answers.
fn checksum(answers: &[Answer]) -> Sums {
    let mut sums = Sums::new();
    for answer in answers {
        sums.add(answer.code);
        sums.add(answer.first);
        sums.add(answer.second);
    }
    sums
}

impl<'a> Case<'a> for Batching<'a> {
    // A case that has too many rows or places is none.
    fn read(parts: &mut Parts<'a>) -> Option<Self> {
        let size = parts.four()?;
        let asked = parts.four()?;
        let count = parts.four_up_to(MOST)?;
        let lent = parts.four_up_to(MOST)?;
        let book = parts.book(size)?;
        let questions = parts.take(asked)?;
        let rows = Rows::read(parts, count)?;
        Some(Batching {
            book,
            questions,
            rows,
            lent,
        })
    }

    // Asks the rows. Prints the answer, and the checksum of all answer rows, those that are not lent too.
    fn print<W: Write>(self, out: &mut W, number: usize) -> io::Result<()> {
        let mut answers = unset();
        let answer = bridge::run(
            self.book,
            self.questions,
            self.rows.as_slice(),
            &mut answers,
            self.lent,
        );
        writeln!(out, "{number} {} {}", Told(answer), checksum(&answers))
    }
}
