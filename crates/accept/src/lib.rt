// Whether bytes are a book of the kind that their mark tells: the trailer's numbers, then a walk over the entries, then one over the table,
// which goes by its form.
#![tactic(auto)]

ghost use Rattle.std.specs.Prelude.{◌≡◌, ◌-◌, length};
ghost use Rattle.format.specs.Book.{opened, told, trailer_size};
ghost use Rattle.format.specs.Outcomes.{check_of};
ghost use Rattle.format.specs.Spans.{is_table};
ghost use Rattle.accept.specs.Parts.{Framed, FramedSays, PartsSay, check_on, checked_as};

use symbols::Rule;
use trailer::Trailer;

// Whether the trailer and the entries with their block table stand: what every kind of book has. The walk over the entries is called at two
// places, one for each rule: so it stays a function, and its name of 200 bytes does not lie below the levels of the node table.
fn is_framed(book: &[u8]) -> bool
    ensures { FramedSays book.now result }
{
    if !trailer::is_trailer(book) {
        return false;
    }
    let n = trailer::names(book);
    let k = trailer::block(book);
    let blocks = trailer::blocks_at(book);
    let nodes = trailer::nodes_at(book);
    let rule = trailer::rule(book);
    match rule {
        Rule::Plain => walk::check_entries(Rule::Plain, book, n, k, blocks, nodes),
        Rule::Folded => walk::check_entries(Rule::Folded, book, n, k, blocks, nodes),
    }
}

// Whether the table stands that the trailer tells of. Every form has nodes, and the walk over them goes by the map that the trailer tells.
fn is_table(book: &[u8]) -> bool
    requires { Framed book.now }
    ensures { result ≡ is_table book.now (told book.now 3) (length book.now - trailer_size) }
{
    inspect::check_table(
        book,
        trailer::nodes_at(book),
        book.len() - trailer::SIZE,
        trailer::names(book),
    )
}

// Whether all parts of a book stand. It hands no number on: what it would keep of the trailer while it walks would lie below every level
// of the node table. For the same reason it stays a function: put into its caller, it takes 48 bytes of stack more.
#[inline(never)]
pub fn is_book(book: &[u8]) -> bool
    ensures { PartsSay book.now result }
{
    is_framed(book) && is_table(book)
}

// What the trailer of a book tells, read once for all who go on; nothing where the bytes are no book.
pub fn check_book(book: &[u8]) -> Option<Trailer>
    ensures { (checked_as result ≡ check_of (opened book.now)) × (result ≡ check_on book.now (opened book.now)) }
{
    if is_book(book) {
        Some(trailer::read(book))
    } else {
        None
    }
}
