// The public calls of `book` for C: each has its name, its clauses and its answer, and does nothing but call it. A slice is a pointer and how
// many stand there, never null. Whoever writes in Rattle calls `book` itself, which also lends a head as a part of its list (`list_step`).
#![tactic(auto)]

ghost use Rattle.std.specs.Prelude.{◌≡◌, map};
ghost use Rattle.format.specs.Kinds.{ColumnBook, FoldedBook, PlainBook};
ghost use Rattle.answers.specs.Calls.{batch, build, check, read_back};
ghost use Rattle.answers.specs.Converting.{converted};
ghost use Rattle.answers.specs.Counts.{counted_question};
ghost use Rattle.answers.specs.Heads.{head_of};
ghost use Rattle.answers.specs.Merging.{judge_lists, merge_lists};
ghost use Rattle.answers.specs.Salvage.{salvage as salvage_of};
ghost use Rattle.shapes.specs.Heads.{headed};
ghost use Rattle.shapes.specs.Salvage.{kept_row, salvaged};
ghost use Rattle.shapes.specs.Shapes.{answered, batched, counted, row_of, written};

use book::{Answer, Counted, Head, Kept, Row};

// Builds the book of a list with blocks of so many names, at the front of the room. Refusals: 8; record by record 5, 6, 7; 9; 4.
#[unsafe(no_mangle)]
pub extern "C" fn book_build(list: &[u8], block: usize, room: &mut [u8]) -> Answer
    ensures { written result room.new ≡ build PlainBook list.now block room.old }
{
    book::book_build(list, block, room)
}

// Builds the folded book, in which capital and small letters are one symbol: 6 is also given for names that are equal once folded.
#[unsafe(no_mangle)]
pub extern "C" fn book_build_folded(list: &[u8], block: usize, room: &mut [u8]) -> Answer
    ensures { written result room.new ≡ build FoldedBook list.now block room.old }
{
    book::book_build_folded(list, block, room)
}

// The book by columns of a plain book: the same names in blocks of the same size, and the node table field by field. Refusals: 2, also for a
// book of another kind than plain; 4.
#[unsafe(no_mangle)]
pub extern "C" fn book_to_columns(book: &[u8], room: &mut [u8]) -> Answer
    ensures { written result room.new ≡ converted PlainBook ColumnBook book.now room.old }
{
    book::book_to_columns(book, room)
}

// The plain book of a book by columns. Refusals: 2, also for a book of another kind than by columns; 4.
#[unsafe(no_mangle)]
pub extern "C" fn book_from_columns(book: &[u8], room: &mut [u8]) -> Answer
    ensures { written result room.new ≡ converted ColumnBook PlainBook book.now room.old }
{
    book::book_from_columns(book, room)
}

// Whether bytes are a book: then how many names it has, in blocks of how many. Refusal: 2.
#[unsafe(no_mangle)]
pub extern "C" fn book_check(book: &[u8]) -> Answer
    ensures { answered result ≡ check book.now }
{
    book::book_check(book)
}

// The name at a position of a book, at the front of the room. Refusals: 2, 3, 4.
#[unsafe(no_mangle)]
pub extern "C" fn book_read(book: &[u8], position: usize, room: &mut [u8]) -> Answer
    ensures { written result room.new ≡ read_back book.now position room.old }
{
    book::book_read(book, position, room)
}

// The position of the name that equals the question, and 1; or 0 and 0. Refusals: 2, 1.
#[unsafe(no_mangle)]
pub extern "C" fn book_exact(book: &[u8], question: &[u8]) -> Counted
    ensures { counted result ≡ counted_question 1 book.now question.now }
{
    book::book_exact(book, question)
}

// How many names are less than the question. Refusals: 2, 1.
#[unsafe(no_mangle)]
pub extern "C" fn book_place(book: &[u8], question: &[u8]) -> Counted
    ensures { counted result ≡ counted_question 2 book.now question.now }
{
    book::book_place(book, question)
}

// The question's place, and how many names begin with it. Refusals: 2, 1.
#[unsafe(no_mangle)]
pub extern "C" fn book_range(book: &[u8], question: &[u8]) -> Counted
    ensures { counted result ≡ counted_question 3 book.now question.now }
{
    book::book_range(book, question)
}

// The position of a name that is as near as any, and what can be lit of the leading bytes that it shares with the question. Refusals: 2, 1, 10.
#[unsafe(no_mangle)]
pub extern "C" fn book_nearest(book: &[u8], question: &[u8]) -> Counted
    ensures { counted result ≡ counted_question 4 book.now question.now }
{
    book::book_nearest(book, question)
}

// The greatest length of the names that begin with the question; 0 where none does. Refusals: 2, 1.
#[unsafe(no_mangle)]
pub extern "C" fn book_width(book: &[u8], question: &[u8]) -> Counted
    ensures { counted result ≡ counted_question 5 book.now question.now }
{
    book::book_width(book, question)
}

// As many answers as rows, each what its row's question alone would get. Refusals: 12, 2; for each row 11, 1, 10, and the others go on.
#[unsafe(no_mangle)]
pub extern "C" fn book_batch(
    book: &[u8],
    questions: &[u8],
    rows: &[Row],
    answers: &mut [Answer],
) -> Answer
    ensures { batched result answers.new ≡ batch book.now questions.now (map row_of rows.now) (map answered answers.old) }
{
    book::book_batch(book, questions, rows, answers)
}

// Whether two lists can be merged: both read well. Refusals, with the record's number and the list's: 5, 6 of the first, then of the second.
#[unsafe(no_mangle)]
pub extern "C" fn list_judge(first: &[u8], second: &[u8]) -> Answer
    ensures { answered result ≡ judge_lists first.now second.now }
{
    book::list_judge(first, second)
}

// The names of two lists in one, a name in both once, at the front of the room. Refusals: 5, 6 of either list; 7; 4.
#[unsafe(no_mangle)]
pub extern "C" fn list_merge(first: &[u8], second: &[u8], room: &mut [u8]) -> Answer
    ensures { written result room.new ≡ merge_lists first.now second.now room.old }
{
    book::list_merge(first, second, room)
}

// The lesser of the heads of two lists, of which so many records have been passed, by its list and its place there. Linear in both lists.
#[unsafe(no_mangle)]
pub extern "C" fn list_head(
    first: &[u8],
    second: &[u8],
    passed_first: usize,
    passed_second: usize,
) -> Head
    ensures { headed result ≡ head_of first.now second.now passed_first passed_second }
{
    book::list_head(first, second, passed_first, passed_second)
}

// The names of all blocks of a worn card that are whole, as list records at the front of the room, and for each block a row: kept, with so
// many names, or dropped. Refusals: 13, 12, 4.
#[unsafe(no_mangle)]
pub extern "C" fn book_salvage(data: &[u8], room: &mut [u8], report: &mut [Kept]) -> Answer
    ensures { salvaged result room.new report.new ≡ salvage_of «data».now room.old (map kept_row report.old) }
{
    book::book_salvage(data, room, report)
}
