// The announcer: a text becomes the clip that is spoken, a route a row of clips. It stands above the book and knows it by its public calls
// alone; only the mark, which no call tells, it reads by itself. Its two calls ask nothing of their caller, like those of `book`, and each has
// one statement. The crate `announcer_c` exports them for C.
#![tactic(auto)]

ghost use Rattle.std.specs.Prelude.{◌≡◌, ◌<◌, ◌≤◌, EachIndex, MatchOption, ℕ, get_or, length, slice_index};
ghost use Rattle.format.specs.Full.{is_full};
ghost use Rattle.format.specs.Kinds.{kind_of};
ghost use Rattle.format.specs.Outcomes.{given, over, refused};
ghost use Rattle.answers.specs.Announcing.{clip_of, refusal};
ghost use Rattle.answers.specs.Calls.{check};
ghost use Rattle.answers.specs.Routes.{clips_at, route_of};
ghost use Rattle.shapes.specs.Shapes.{answered};
ghost use Rattle.shapes.specs.Endings.{outcome};
ghost use Rattle.shapes.specs.Routes.{routed};
ghost use Rattle.announcer.specs.Asking.{HeardSays, Inside, Told, served};

use book::{Answer, Row};
use refusals::Refusal;

// What a book says of a text: how many names there are; exact's and range's answer.
#[derive(Clone, Copy)]
pub struct Heard {
    pub names: usize,
    pub exact: Answer,
    pub range: Answer,
}

// What the book says of the text, for one check: the range of nothing tells how many names there are, since every name begins with it. Of
// bytes that are no book nothing is heard.
fn hear(book: &[u8], text: &[u8]) -> Option<Heard>
    ensures { HeardSays book.now text.now result }
{
    let length = text.len();
    let rows = [
        Row {
            kind: 3,
            start: 0,
            length: 0,
        },
        Row {
            kind: 1,
            start: 0,
            length,
        },
        Row {
            kind: 3,
            start: 0,
            length,
        },
    ];
    let none = Answer {
        code: 0,
        first: 0,
        second: 0,
    };
    let mut answers = [none; 3];
    let asked = book::book_batch(book, text, &rows, &mut answers);
    if asked.code != 0 {
        return None;
    }
    let [whole, exact, range] = answers;
    Some(Heard {
        names: whole.second,
        exact,
        range,
    })
}

// Whether the book is a full one, of either symbol rule: the third byte of its mark tells the kind. No call does.
fn is_full(book: &[u8]) -> bool
    requires { (check book.now).code ≡ 0 }
    ensures { result ≡ is_full (kind_of book.now) }
{
    let third = book[book.len() - 2];
    third == b'K' || third == b'F'
}

// Whether a book of so many names is served with a clip table. Refusals: 2, 16.
fn serve(book: &[u8], clips: &[u16], names: usize) -> Result<(), Refusal>
    requires { Told book.now names }
    ensures { served result ≡ refused (refusal book.now clips.now) }
{
    if !is_full(book) {
        return Err(Refusal::NoBook);
    }
    if clips.len() != names {
        return Err(Refusal::BadClipTable);
    }
    Ok(())
}

// The clip of a position, as an answer.
fn speak(clips: &[u16], position: usize) -> Answer
    requires { position < length clips.now }
    ensures { answered result ≡ given 1 (get_or clips.now position 0) }
{
    Answer {
        code: 0,
        first: 1,
        second: usize::from(clips[position]),
    }
}

// The clip of a text: that of the name that equals it; else that of the only name that begins with it; else how many begin with it.
// Refusals: 2, 16, 1.
pub fn announce_clip(book: &[u8], clips: &[u16], text: &[u8]) -> Answer
    ensures { answered result ≡ clip_of book.now clips.now text.now }
{
    let Some(heard) = hear(book, text) else {
        return Answer::from(Refusal::NoBook);
    };
    if let Err(refused) = serve(book, clips, heard.names) {
        return Answer::from(refused);
    }
    if 200 < text.len() {
        return Answer::from(Refusal::QuestionTooLong);
    }
    if heard.exact.second == 1 {
        return speak(clips, heard.exact.first);
    }
    if heard.range.second == 1 {
        return speak(clips, heard.range.first);
    }
    Answer {
        code: 0,
        first: 0,
        second: heard.range.second,
    }
}

// The index of the first position that is not below n.
fn first_bad(positions: &[usize], n: usize) -> Option<usize>
    ensures { MatchOption result (EachIndex positions.now (λ k. slice_index positions.now k < n))
        (λ i. (i < length positions.now) × (n ≤ slice_index positions.now i) × ((k : ℕ) → k < i → slice_index positions.now k < n)) }
{
    positions.iter().position(|position| n <= *position)
}

// The clips at some positions, at the front of the room.
fn put_clips(clips: &[u16], positions: &[usize], room: &mut [u16])
    requires { Inside clips.now positions.now room.old }
    ensures { room.new ≡ over (clips_at clips.now positions.now) room.old }
{
    for (stop, position) in positions.iter().enumerate() {
        room[stop] = clips[*position];
    }
}

// The clips of a route, in its order, at the front of the room, and how many bytes they have: two for each position. Refusals: 2, 16, 12, 3
// with the index of the first bad position, 4.
fn put_route(
    book: &[u8],
    clips: &[u16],
    positions: &[usize],
    room: &mut [u16],
) -> Result<usize, Refusal>
    ensures { record { answer = outcome result; room = room.new } ≡ route_of book.now clips.now positions.now room.old }
{
    let checked = book::book_check(book);
    if checked.code != 0 {
        return Err(Refusal::NoBook);
    }
    serve(book, clips, checked.first)?;
    if 120 < positions.len() {
        return Err(Refusal::BadBatch);
    }
    if let Some(bad) = first_bad(positions, checked.first) {
        return Err(Refusal::NoSuchPosition(bad));
    }
    if room.len() < positions.len() {
        return Err(Refusal::RoomTooShort);
    }
    put_clips(clips, positions, room);
    Ok(2 * positions.len())
}

// A route's clips at the front of the room, by `put_route`. Refusals: 2, 16, 12, 3 with the index of the first bad position, 4.
pub fn announce_route(book: &[u8], clips: &[u16], positions: &[usize], room: &mut [u16]) -> Answer
    ensures { routed result room.new ≡ route_of book.now clips.now positions.now room.old }
{
    Answer::from(put_route(book, clips, positions, room))
}
