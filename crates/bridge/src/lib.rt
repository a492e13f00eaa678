// How a program asks a batch: of the answers that it has, a front is lent, and what is behind that stays.
#![tactic(auto)]

ghost use Rattle.std.specs.Prelude.{◌≡◌, map, ◌≤◌, drop, length, take};
ghost use Rattle.answers.specs.Calls.{batch};
ghost use Rattle.shapes.specs.Shapes.{answered, row_of, batched};

use book::{Answer, Row};

// Asks the rows, with so many of the answers lent.
pub fn run(
    book: &[u8],
    questions: &[u8],
    rows: &[Row],
    answers: &mut [Answer],
    lent: usize,
) -> Answer
    requires { lent ≤ length answers.old }
    ensures lent { batched result (take lent answers.new) ≡
        batch book.now questions.now (map row_of rows.now) (map answered (take lent answers.old)) }
    ensures rest { drop lent answers.new ≡ drop lent answers.old }
{
    book::book_batch(book, questions, rows, &mut answers[..lent])
}
