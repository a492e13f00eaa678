// Why a call refuses. A function of the library that can refuse gives one of these beside what it else gives; what the guests see, the
// refusal's number and the number beside it, is made of it where a public call ends.
#![tactic(auto)]

ghost use Rattle.std.specs.Prelude.{◌≡◌};
ghost use Rattle.refusals.specs.Refusals.{beside, code_of};

// The refusals in the order of their numbers, from 1 on, with the number that stands beside some of them.
#[derive(Clone, Copy, PartialEq, Eq)]
pub enum Refusal {
    // The question is longer than 200 bytes.
    QuestionTooLong,
    // The bytes are no book, or none of a kind that the call takes.
    NoBook,
    // The position is at or above the number of names. Of a route, that of the stop with this index; else 0.
    NoSuchPosition(usize),
    // The lent room is shorter than the output.
    RoomTooShort,
    // The record with this number has length 0 or above 200, or runs past the list.
    BadRecord(usize),
    // The name of the record with this number is not above the one before it.
    NotAbove(usize),
    // The record with this number has a name too many.
    TooManyNames(usize),
    // The block size is not 1 to 64.
    BadBlockSize,
    // The book would be longer than 65,535 bytes.
    BookTooLong,
    // The nearest name was asked of a book without names.
    NoNames,
    // A row's kind is not 1 to 5, or its start plus length is past the buffer.
    BadRow,
    // There are too many rows or stops, or too many or too few rows to write to.
    BadBatch,
    // The trailer or the block table makes no sense.
    NoMap,
    // The name is there already. No call gives it yet.
    ThereAlready,
    // The name is not there. No call gives it yet.
    NotThere,
    // The clip table has more clips or fewer than the book has names.
    BadClipTable,
}

impl Refusal {
    // The refusal's number. It and the number beside it stay functions: put into one caller, the compiler makes of both a table of places to go to,
    // and where such a jump leads cannot be told from the code. By itself this one is an addition.
    #[inline(never)]
    pub fn code(self) -> usize
        ensures { result ≡ code_of self }
    {
        match self {
            Refusal::QuestionTooLong => 1,
            Refusal::NoBook => 2,
            Refusal::NoSuchPosition(_) => 3,
            Refusal::RoomTooShort => 4,
            Refusal::BadRecord(_) => 5,
            Refusal::NotAbove(_) => 6,
            Refusal::TooManyNames(_) => 7,
            Refusal::BadBlockSize => 8,
            Refusal::BookTooLong => 9,
            Refusal::NoNames => 10,
            Refusal::BadRow => 11,
            Refusal::BadBatch => 12,
            Refusal::NoMap => 13,
            Refusal::ThereAlready => 14,
            Refusal::NotThere => 15,
            Refusal::BadClipTable => 16,
        }
    }

    // The number beside it; 0 where there is none.
    #[inline(never)]
    pub fn beside(self) -> usize
        ensures { result ≡ beside self }
    {
        match self {
            Refusal::NoSuchPosition(stop) => stop,
            Refusal::BadRecord(record) => record,
            Refusal::NotAbove(record) => record,
            Refusal::TooManyNames(record) => record,
            _ => 0,
        }
    }
}
