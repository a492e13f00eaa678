// The public calls. None asks anything of its caller: any bytes, any numbers and any lengths are taken, and every call ends. Each has
// one statement: its answer and all that was lent, as they are when it ends, equal a function of what came in. The crate `book_c` exports
// them for C. A call over a book goes by the book's own mark. Inner functions, which may ask something, stand in the crates below.
#![tactic(auto)]

ghost use Rattle.std.specs.Prelude.{◌≡◌, map};
ghost use Rattle.format.specs.Kinds.{ColumnBook, FoldedBook, PlainBook};
ghost use Rattle.answers.specs.Calls.{batch, build, check, read_back};
ghost use Rattle.answers.specs.Converting.{converted};
ghost use Rattle.answers.specs.Counts.{counted_question};
ghost use Rattle.answers.specs.Heads.{head_of, part_of};
ghost use Rattle.answers.specs.Merging.{judge_lists, merge_lists};
ghost use Rattle.answers.specs.Salvage.{salvage as salvage_of};
ghost use Rattle.shapes.specs.Heads.{headed, lent_part};
ghost use Rattle.shapes.specs.Salvage.{kept_row, salvaged};
ghost use Rattle.shapes.specs.Shapes.{answered, batched, counted, row_of, written};
ghost use Rattle.shapes.specs.Endings.{wrote};
ghost use Rattle.judging.specs.Ends.{bad_list};
ghost use Rattle.questions.specs.Asking.{replied};

use judging::Unread;
use kinds::Kind;
use refusals::Refusal;
use search::{Asked, Reply};
pub use shapes::{Answer, Counted, Head, Kept, Row};

// Builds the book of a list with blocks of so many names, at the front of the room. Refusals: 8; record by record 5, 6, 7; 9; 4.
pub fn book_build(list: &[u8], block: usize, room: &mut [u8]) -> Answer
    ensures { written result room.new ≡ build PlainBook list.now block room.old }
{
    Answer::from(build::build_list(Kind::Plain, list, block, room))
}

// Builds the folded book, in which capital and small letters are one symbol: 6 is also given for names that are equal once folded.
pub fn book_build_folded(list: &[u8], block: usize, room: &mut [u8]) -> Answer
    ensures { written result room.new ≡ build FoldedBook list.now block room.old }
{
    Answer::from(build::build_list(Kind::Folded, list, block, room))
}

// The book by columns of a plain book: the same names in blocks of the same size, and the node table field by field. Refusals: 2, also for a
// book of another kind than plain; 4.
pub fn book_to_columns(book: &[u8], room: &mut [u8]) -> Answer
    ensures { written result room.new ≡ converted PlainBook ColumnBook book.now room.old }
{
    Answer::from(convert::convert(book, Kind::Plain, Kind::Columns, room))
}

// The plain book of a book by columns. Refusals: 2, also for a book of another kind than by columns; 4.
pub fn book_from_columns(book: &[u8], room: &mut [u8]) -> Answer
    ensures { written result room.new ≡ converted ColumnBook PlainBook book.now room.old }
{
    Answer::from(convert::convert(book, Kind::Columns, Kind::Plain, room))
}

// Whether bytes are a book: then how many names it has, in blocks of how many. Refusal: 2.
pub fn book_check(book: &[u8]) -> Answer
    ensures { answered result ≡ check book.now }
{
    let Some(t) = accept::check_book(book) else {
        return Answer::from(Refusal::NoBook);
    };
    Answer {
        code: 0,
        first: usize::from(t.names),
        second: usize::from(t.block),
    }
}

// The name at a position of a book, at the front of the room, and how many bytes it has.
fn read_name(book: &[u8], position: usize, room: &mut [u8]) -> Result<usize, Refusal>
    ensures { wrote result room.new ≡ read_back book.now position room.old }
{
    let Some(t) = accept::check_book(book) else {
        return Err(Refusal::NoBook);
    };
    if usize::from(t.names) <= position {
        return Err(Refusal::NoSuchPosition(0));
    }
    let Some(len) = names::put_name(book, t, position, room) else {
        return Err(Refusal::RoomTooShort);
    };
    Ok(len)
}

// The name at a position of a book, at the front of the room. Refusals: 2, 3, 4.
pub fn book_read(book: &[u8], position: usize, room: &mut [u8]) -> Answer
    ensures { written result room.new ≡ read_back book.now position room.old }
{
    Answer::from(read_name(book, position, room))
}

// How a question ended, as a call's numbers.
fn counted_of(ending: Result<Reply, Refusal>) -> Counted
    ensures { counted result ≡ replied ending }
{
    match ending {
        Ok(reply) => Counted {
            code: 0,
            first: reply.first,
            second: reply.second,
            visits: reply.visits,
            entries: reply.entries,
        },
        Err(refusal) => Counted::from(refusal),
    }
}

// The position of the name that equals the question, and 1; or 0 and 0. Refusals: 2, 1.
pub fn book_exact(book: &[u8], question: &[u8]) -> Counted
    ensures { counted result ≡ counted_question 1 book.now question.now }
{
    counted_of(questions::ask_alone(book, Asked::Exact, question))
}

// How many names are less than the question. Refusals: 2, 1.
pub fn book_place(book: &[u8], question: &[u8]) -> Counted
    ensures { counted result ≡ counted_question 2 book.now question.now }
{
    counted_of(questions::ask_alone(book, Asked::Place, question))
}

// The question's place, and how many names begin with it. Refusals: 2, 1.
pub fn book_range(book: &[u8], question: &[u8]) -> Counted
    ensures { counted result ≡ counted_question 3 book.now question.now }
{
    counted_of(questions::ask_alone(book, Asked::Range, question))
}

// The position of a name that is as near as any, and what can be lit of the leading bytes that it shares with the question. Refusals: 2, 1, 10.
pub fn book_nearest(book: &[u8], question: &[u8]) -> Counted
    ensures { counted result ≡ counted_question 4 book.now question.now }
{
    counted_of(questions::ask_alone(book, Asked::Nearest, question))
}

// The greatest length of the names that begin with the question; 0 where none does. Refusals: 2, 1.
pub fn book_width(book: &[u8], question: &[u8]) -> Counted
    ensures { counted result ≡ counted_question 5 book.now question.now }
{
    counted_of(questions::ask_alone(book, Asked::Width, question))
}

// How a row's question ended, as the row's numbers, which do not tell how far it looked.
fn answer_of(ending: Result<Reply, Refusal>) -> Answer
    ensures { answered result ≡ (replied ending).answer }
{
    match ending {
        Ok(reply) => Answer {
            code: 0,
            first: reply.first,
            second: reply.second,
        },
        Err(refusal) => Answer::from(refusal),
    }
}

// As many answers as rows, each what its row's question alone would get. Refusals: 12, 2; for each row 11, 1, 10, and the others go on.
pub fn book_batch(book: &[u8], questions: &[u8], rows: &[Row], answers: &mut [Answer]) -> Answer
    ensures { batched result answers.new ≡ batch book.now questions.now (map row_of rows.now) (map answered answers.old) }
{
    let opening = batches::open_batch(book, rows.len(), answers.len());
    if let Err(refusal) = opening {
        return Answer::from(refusal);
    }
    for (i, row) in rows.iter().enumerate() {
        answers[i] = answer_of(batches::answer_row(book, questions, *row));
    }
    Answer::from(opening)
}

// Which of two lists does not read well, as a call's numbers: why, with the record's number, and the list's.
fn unread_answer(unread: Unread) -> Answer
    ensures { answered result ≡ bad_list unread }
{
    match unread {
        Unread::First(refusal) => Answer {
            code: refusal.code(),
            first: refusal.beside(),
            second: 1,
        },
        Unread::Second(refusal) => Answer {
            code: refusal.code(),
            first: refusal.beside(),
            second: 2,
        },
    }
}

// Whether two lists can be merged: both read well. Refusals, with the record's number and the list's: 5, 6 of the first, then of the second.
pub fn list_judge(first: &[u8], second: &[u8]) -> Answer
    ensures { answered result ≡ judge_lists first.now second.now }
{
    match judging::judge_both(first, second) {
        Ok(()) => Answer {
            code: 0,
            first: 0,
            second: 0,
        },
        Err(unread) => unread_answer(unread),
    }
}

// The names of two lists in one, a name in both once, at the front of the room. Refusals: 5, 6 of either list; 7; 4.
pub fn list_merge(first: &[u8], second: &[u8], room: &mut [u8]) -> Answer
    ensures { written result room.new ≡ merge_lists first.now second.now room.old }
{
    if let Err(unread) = judging::judge_both(first, second) {
        return unread_answer(unread);
    }
    Answer::from(merge::merge_judged(first, second, room))
}

// The lesser of the heads of two lists, of which so many records have been passed, by its list and its place there. Linear in both lists.
pub fn list_head(first: &[u8], second: &[u8], passed_first: usize, passed_second: usize) -> Head
    ensures { headed result ≡ head_of first.now second.now passed_first passed_second }
{
    let Ok(()) = judging::judge_both(first, second) else {
        return heads::no_head();
    };
    heads::head_judged(first, second, passed_first, passed_second)
}

// That head as a part of the list it stands in. Linear in both lists.
pub fn list_step<'a>(
    first: &'a [u8],
    second: &'a [u8],
    passed_first: usize,
    passed_second: usize,
) -> &'a [u8]
    ensures { lent_part result ≡ part_of first.entry second.entry (head_of first.now second.now passed_first passed_second) }
{
    let head = list_head(first, second, passed_first, passed_second);
    let start = head.start;
    let end = start + head.length;
    if head.list == 2 {
        &second[start..end]
    } else {
        &first[start..end]
    }
}

// The names of all blocks of a worn card that are whole, as list records at the front of the room, and for each block a row: kept, with so
// many names, or dropped. Refusals: 13, 12, 4.
pub fn book_salvage(data: &[u8], room: &mut [u8], report: &mut [Kept]) -> Answer
    ensures { salvaged result room.new report.new ≡ salvage_of «data».now room.old (map kept_row report.old) }
{
    let saved = match salvage::save_names(data, report.len(), room) {
        Ok(saved) => saved,
        Err(refusal) => return Answer::from(refusal),
    };
    for (i, row) in report.iter_mut().enumerate() {
        *row = cards::row_of(data, &saved.notes, i);
    }
    Answer {
        code: 0,
        first: saved.size,
        second: 0,
    }
}
