// The two calls of `announcer` for C: each has its name, its clauses and its answer, and does nothing but call it. A slice is a pointer and
// how many stand there, never null. Whoever writes in Rattle calls `announcer` itself.
#![tactic(auto)]

ghost use Rattle.std.specs.Prelude.{◌≡◌};
ghost use Rattle.answers.specs.Announcing.{clip_of};
ghost use Rattle.answers.specs.Routes.{route_of};
ghost use Rattle.shapes.specs.Shapes.{answered};
ghost use Rattle.shapes.specs.Routes.{routed};

use shapes::Answer;

// The clip of a text: that of the name that equals it; else that of the only name that begins with it; else how many begin with it.
// Refusals: 2, 16, 1.
#[unsafe(no_mangle)]
pub extern "C" fn announce_clip(book: &[u8], clips: &[u16], text: &[u8]) -> Answer
    ensures { answered result ≡ clip_of book.now clips.now text.now }
{
    announcer::announce_clip(book, clips, text)
}

// The clips of a route, in its order, at the front of the room: two bytes for each position. Refusals: 2, 16, 12, 3 with the index of the
// first bad position, 4.
#[unsafe(no_mangle)]
pub extern "C" fn announce_route(
    book: &[u8],
    clips: &[u16],
    positions: &[usize],
    room: &mut [u16],
) -> Answer
    ensures { routed result room.new ≡ route_of book.now clips.now positions.now room.old }
{
    announcer::announce_route(book, clips, positions, room)
}
