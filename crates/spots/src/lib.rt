// What a question comes to in the node table of an accepted book. One way down serves all five kinds (crate `paths`). The name that it
// reaches is rebuilt and compared, since the way down passes over bytes that it never looks at. Beside what is found stands how far that
// looked: the nodes on the way, and the entries that were read for the name. A node is told by the offset of its first number. What else the
// trailer tells is read there where it is wanted: what would be kept for later takes registers from the way down.
#![tactic(auto)]

ghost use Rattle.std.specs.Prelude.{IsTrue, ◌≡◌};
ghost use Rattle.format.specs.Book.{told};
ghost use Rattle.format.specs.Spans.{words_in};
ghost use Rattle.descent.specs.Vocabulary.{asked_in};
ghost use Rattle.names.specs.Names.{entries_to};
ghost use Rattle.paths.specs.Paths.{own_map};
ghost use Rattle.spots.specs.Spots.{Askable, Looked, MetSays, NameAsk, NearSays, NextSays, SpotSays};

use fields::Table;

// A name and how it stands to a question: its position and its length, how many symbols the two share, and its next one where it is asked
// for; and how far the search looked for it.
#[derive(Clone, Copy)]
pub struct Met {
    pub position: usize,
    pub len: usize,
    pub shared: usize,
    pub symbol: usize,
    pub visits: usize,
    pub entries: usize,
}

// The offset of the node whose names share most with a question, and the name that the question reaches.
#[derive(Clone, Copy)]
pub struct Spot {
    pub node: usize,
    pub met: Met,
}

// The name at a position, which was found with so many visits, rebuilt, and how it stands to the question; its next symbol where NEXT says that
// it is asked for. So each of its two callers has one of its own, inside of which the compiler puts it. One for both takes 1,023 instructions
// for a place on 1,800 stations where it stands in either, and 1,053 where it is called, and this 992.
fn compare<const NEXT: bool>(book: &[u8], position: usize, visits: usize, question: &[u8]) -> Met
    requires { NameAsk book.now position }
    ensures kept { (result.position ≡ position) × (result.visits ≡ visits) }
    ensures met_says { MetSays (words_in book.now) (asked_in book.now question.now) position result.len result.shared }
    ensures next { IsTrue NEXT → NextSays (words_in book.now) position result.shared result.symbol }
    ensures entries_value { result.entries ≡ entries_to (told book.now 1) position }
{
    let k = trailer::block(book);
    let entry = names::read_at(book, k, trailer::blocks_at(book), position);
    let name = entry.bytes();
    let rule = trailer::rule(book);
    let shared = symbols::shared_symbols(rule, question, name);
    let symbol = if NEXT {
        symbols::symbol_at(rule, name, 0, shared)
    } else {
        0
    };
    Met {
        position,
        len: name.len(),
        shared,
        symbol,
        visits,
        entries: entry.read,
    }
}

// The name that a question reaches, rebuilt and compared. Exact and nearest ask for no more: the node whose names share most, and the
// path to it, are what place, range and width want (`locate`).
pub fn meet(table: Table<'_>, question: &[u8]) -> Met
    requires { Askable table.book.now table.stride table.step }
    ensures near_says { NearSays (words_in table.entry.book.now) (asked_in table.entry.book.now question.now) result.position result.shared result.len }
    ensures looked { Looked table.entry.book.now question.now result.visits result.entries }
{
    let way = paths::descend(table, question);
    compare::<false>(table.book, table.first(way.last), way.len, question)
}

// The node with the names that share most with the question.
pub fn locate(table: Table<'_>, question: &[u8]) -> Spot
    requires { Askable table.book.now table.stride table.step }
    ensures spot_says { SpotSays table.entry.book.now (own_map table.entry) (asked_in table.entry.book.now question.now) result.node result.met.shared result.met.symbol }
    ensures looked { Looked table.entry.book.now question.now result.met.visits result.met.entries }
{
    let way = paths::descend(table, question);
    let met = compare::<true>(table.book, table.first(way.last), way.len, question);
    Spot {
        node: paths::highest(table, way, met.shared),
        met,
    }
}
