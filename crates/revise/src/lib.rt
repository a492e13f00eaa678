// A full book with one name more, or one less: what is noted of the changed names on a walk over the old entries. No list of the names and no tree
// is kept; two names are compared where the name goes in or out, and nowhere else.
#![tactic(auto)]

ghost use Rattle.std.specs.Prelude.{◌≤◌, ◌<◌, length};
ghost use Rattle.entries.specs.Reading.{NextIs};
ghost use Rattle.streams.specs.Streams.{EntryAt, name_at};
ghost use Rattle.symbols.specs.Rules.{rule_by};
ghost use Rattle.revise.specs.Noting.{NoteAsk, NotePut, NoteSet};

use entries::{Cursor, Name};
use records::Note;
use symbols::Rule;

// Notes the name of the entry at the cursor, behind the one at hand, as name number j, and reads it. Gives where the next entry stands.
fn note_next(
    rule: Rule,
    book: &[u8],
    cur: Cursor,
    name: &mut Name,
    j: usize,
    notes: &mut [Note],
) -> Cursor
    requires { EntryAt book.now cur.at (length name.old) × (j < length notes.old) }
    ensures name_read { NextIs book.now cur.at name.old result.at name.new }
    ensures note_set { NoteSet (rule_by rule) name.old (name_at book.now cur.at name.old) j notes.old notes.new }
{
    let count = neighbours::shared_ahead(Rule::Plain, book, cur.at, name.bytes());
    let share = neighbours::shared_ahead(rule, book, cur.at, name.bytes());
    let next = cur.read(book, name);
    let len = name.bytes().len();
    notes[j] = Note {
        len: len as u8,
        count: count as u8,
        share: share as u8,
    };
    next
}

// Notes m entries, from the one at the cursor on, as names number j and on. The name before them is at hand, and then the last of them.
fn note_run(
    rule: Rule,
    book: &[u8],
    from: Cursor,
    name: &mut Name,
    m: usize,
    j: usize,
    notes: &mut [Note],
) -> Cursor
    requires { NoteAsk book.now from.at name.old m j notes.old }
    ensures { NotePut (rule_by rule) book.now from.at name.old m j notes.old notes.new result.at name.new }
{
    let mut cur = from;
    for t in 0..m {
        cur = note_next(rule, book, cur, name, j + t, notes);
    }
    cur
}

// Notes a name that is whole as name number j, behind the name prev.
fn note_whole(rule: Rule, prev: &[u8], name: &[u8], j: usize, notes: &mut [Note])
    requires { (length name.now ≤ 200) × (j < length notes.old) }
    ensures { NoteSet (rule_by rule) prev.now name.now j notes.old notes.new }
{
    let count = symbols::shared_symbols(Rule::Plain, prev, name);
    let share = symbols::shared_symbols(rule, prev, name);
    notes[j] = Note {
        len: name.len() as u8,
        count: count as u8,
        share: share as u8,
    };
}
