// The entries of a book, read. What an entry stores is counted in bytes, under every rule.
// No list of the names is kept: a name is read from the one before it, into the same array.
#![tactic(auto)]

ghost use Rattle.std.specs.Prelude.{◌≡◌, ◌+◌, ◌≤◌, List, [], ℕ, length, take};
ghost use Rattle.streams.specs.Streams.{EntryAt};
ghost use Rattle.entries.specs.Reading.{NameIs, NextIs, ReadAsk};
ghost use Rattle.format.specs.Records.{most_names};

use std::marker::Model;

// The name at hand: at most 200 bytes, which each entry that is read turns into the next name. A clause sees the name alone, and not what
// older names have left behind it.
#[derive(Drop)]
pub struct Name {
    array: [u8; 200],
    len: usize,
}

impl Model for Name {
    ghost Value = { List ℕ };

    ghost view = { λ s. take s.len s.array };

    ghost invariant = { λ s. s.len ≤ 200 };
}

impl Name {
    // No name yet: before the first one.
    pub fn new() -> Self
        ensures { result ≡ [] }
    {
        Name {
            array: [0; 200],
            len: 0,
        }
    }

    // Its bytes.
    pub fn bytes(&self) -> &[u8]
        ensures { (result.now ≡ self.now) × (length self.now ≤ 200) }
    {
        &self.array[..self.len]
    }

    // No name again, as before a block's first one.
    pub fn clear(&mut self)
        ensures { self.new ≡ [] }
    {
        self.len = 0;
    }
}

// Where an entry stands.
#[derive(Clone, Copy)]
pub struct Cursor {
    pub at: usize,
}

// A name that was rebuilt, in the first `len` bytes of an array, and how many entries were read for it. It is plain data, which is copied as a
// number is.
#[derive(Clone, Copy)]
pub struct Entry {
    pub name: [u8; 200],
    pub len: usize,
    pub read: usize,
    ghost fits: { len ≤ 200 },
}

// How long the name is that was read into an array, and the place of the next entry.
#[derive(Clone, Copy)]
pub struct Ahead {
    pub len: usize,
    pub next: Cursor,
}

impl Cursor {
    // Reads the entry at the cursor into an array, of which the first `len` bytes are the name before it. What the two share stays where it is,
    // so a walk needs one array, however many entries it reads.
    fn next(self, book: &[u8], array: &mut [u8; 200], len: usize) -> Ahead
        requires { EntryAt book.now self.at len × (len ≤ 200) }
        ensures next_is { NextIs book.now self.at (take len array.old) result.next.at (take result.len array.new) }
        ensures fits { result.len ≤ 200 }
    {
        let at = self.at;
        let c = usize::from(book[at]);
        let n = usize::from(book[at + 1]);
        let from = at + 2;
        let to = from + n;
        numbers::copy(&book[from..to], &mut array[c..]);
        Ahead {
            len: c + n,
            next: Cursor { at: to },
        }
    }

    // Reads the entry at the cursor into the name before it, and gives the place of the next one. What the two share stays where it is, so a
    // walk needs one name, however many entries it reads.
    pub fn read(self, book: &[u8], name: &mut Name) -> Cursor
        requires { EntryAt book.now self.at (length name.old) }
        ensures { NextIs book.now self.at name.old result.at name.new }
    {
        let ahead = self.next(book, &mut name.array, name.len);
        name.len = ahead.len;
        ahead.next
    }
}

impl Entry {
    // The name's bytes.
    pub fn bytes(&self) -> &[u8]
        ensures { (result.now ≡ take self.now.len self.now.name) × (length result.now ≤ 200) }
    {
        &self.name[..self.len]
    }

    // Reads the entry at a cursor, whose name takes the place of the one before it, and counts it. Gives the place of the next one.
    fn read_on(&mut self, book: &[u8], cur: Cursor) -> Cursor
        requires { EntryAt book.now cur.at self.old.len × (self.old.read ≤ most_names) }
        ensures next_is { NextIs book.now cur.at (take self.old.len self.old.name) result.at (take self.new.len self.new.name) }
        ensures counted { self.new.read ≡ self.old.read + 1 }
    {
        let ahead = cur.next(book, &mut self.name, self.len);
        self.len = ahead.len;
        self.read += 1;
        ahead.next
    }
}

// The name of entry number count, counted from 0, of a block whose first entry stands at `start`. The entries are counted as they are read.
pub fn name_of(book: &[u8], start: usize, count: usize) -> Entry
    requires { ReadAsk book.now start count }
    ensures name_is { NameIs book.now start count (take result.len result.name) }
    ensures read_value { result.read ≡ count + 1 }
{
    let mut cur = Cursor { at: start };
    let mut entry = Entry {
        name: [0; 200],
        len: 0,
        read: 0,
    };
    for _ in 0..count {
        cur = entry.read_on(book, cur);
    }
    entry.read_on(book, cur);
    entry
}
