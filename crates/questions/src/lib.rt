// What the public calls stand on: a question to a book that the check has accepted.
// Whoever asks here has to know what the check answered, but for `ask_alone`, which checks; the calls above ask nothing.
#![tactic(auto)]

ghost use Rattle.std.specs.Prelude.{◌≡◌};
ghost use Rattle.format.specs.Spans.{words_in};
ghost use Rattle.answers.specs.Counts.{counted_question};
ghost use Rattle.answers.specs.Questions.{ask as answer_of};
ghost use Rattle.descent.specs.Vocabulary.{asked_in};
ghost use Rattle.search.specs.Asks.{number_of, pair_of};
ghost use Rattle.spots.specs.Spots.{Looked};
ghost use Rattle.questions.specs.Asking.{Accepted, Looking, replied};

use refusals::Refusal;
use search::{Asked, Reply};

// The two numbers that an accepted book with names answers to a question, and how far that looked. Every form of table has nodes, and one
// engine searches them.
fn look_up(book: &[u8], kind: Asked, question: &[u8]) -> Reply
    requires { Looking book.now }
    ensures result_value { pair_of result ≡ answer_of (number_of kind) (asked_in book.now question.now) (words_in book.now) }
    ensures looked { Looked book.now question.now result.visits result.entries }
{
    search::answer(book, kind, question)
}

// A question to a book that the check has accepted: whoever has many questions checks once. Of what nearest's name shares, what can be lit
// of the question is given; nearest is told apart first, so that its number need not be kept over the search. Refusals: 1, 10.
pub fn ask(book: &[u8], kind: Asked, question: &[u8]) -> Result<Reply, Refusal>
    requires { Accepted book.now }
    ensures { replied result ≡ counted_question (number_of kind) book.now question.now }
{
    if 200 < question.len() {
        return Err(Refusal::QuestionTooLong);
    }
    if trailer::names(book) == 0 {
        if kind == Asked::Nearest {
            return Err(Refusal::NoNames);
        }
        return Ok(Reply {
            first: 0,
            second: 0,
            visits: 0,
            entries: 0,
        });
    }
    if kind == Asked::Nearest {
        let near = look_up(book, Asked::Nearest, question);
        return Ok(Reply {
            second: letters::lit_part(question, near.second),
            ..near
        });
    }
    Ok(look_up(book, kind, question))
}

// A question to bytes of which nothing is known yet. Refusals: 2, 1, 10.
pub fn ask_alone(book: &[u8], kind: Asked, question: &[u8]) -> Result<Reply, Refusal>
    ensures { replied result ≡ counted_question (number_of kind) book.now question.now }
{
    let Some(_) = accept::check_book(book) else {
        return Err(Refusal::NoBook);
    };
    ask(book, kind, question)
}
