// How a batch opens, and what one of its rows gets: what a question alone would get, in the crate `questions`. Whoever asks for a row has to
// know that the opening refused nothing, so that the check accepts the book; `book_batch` above asks nothing.
#![tactic(auto)]

ghost use Rattle.std.specs.Prelude.{◌≡◌};
ghost use Rattle.format.specs.Book.{opened};
ghost use Rattle.answers.specs.Calls.{row_answer};
ghost use Rattle.shapes.specs.Shapes.{row_of};
ghost use Rattle.shapes.specs.Endings.{outcome};
ghost use Rattle.questions.specs.Asking.{Accepted, replied};
ghost use Rattle.batches.specs.Batches.{opening_of, takes_rows};

use refusals::Refusal;
use search::{Asked, Reply};
use shapes::Row;

// Whether a batch of so many rows, with so many places for answers, can be asked of these bytes; then how many rows. Refusals: 12, 2.
pub fn open_batch(book: &[u8], rows: usize, places: usize) -> Result<usize, Refusal>
    ensures { outcome result ≡ opening_of rows (takes_rows rows places) (opened book.now) }
{
    if 64 < rows {
        return Err(Refusal::BadBatch);
    }
    if rows != places {
        return Err(Refusal::BadBatch);
    }
    let Some(_) = accept::check_book(book) else {
        return Err(Refusal::NoBook);
    };
    Ok(rows)
}

// What a row's question alone would get from a book that the batch's opening has accepted. Refusals: 11, 1, 10. It stays a function: put into the
// announcer's call, what it keeps lies below every level of the check before it (DECISIONS 193).
#[inline(never)]
pub fn answer_row(book: &[u8], questions: &[u8], row: Row) -> Result<Reply, Refusal>
    requires { Accepted book.now }
    ensures { (replied result).answer ≡ row_answer (opened book.now) questions.now (row_of row) }
{
    let Some(kind) = Asked::from_number(row.kind) else {
        return Err(Refusal::BadRow);
    };
    if questions.len() < row.start {
        return Err(Refusal::BadRow);
    }
    if questions.len() - row.start < row.length {
        return Err(Refusal::BadRow);
    }
    let start = row.start;
    let end = start + row.length;
    questions::ask(book, kind, &questions[start..end])
}
