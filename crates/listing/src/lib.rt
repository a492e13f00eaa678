// The listing of a book, into a writer: a line of numbers, then a line for each name. Whatever bytes come, it is safe and ends.
// The book is checked once, by `accept::check_book`; then each name is read by `names::read_name`, which trusts what the check has
// shown. What an entry stores is not told with its name, so the stored count is made of the name before: it is a count of bytes in every
// book, and by the plain rule symbols are equal just where bytes are.
#![tactic(auto)]

ghost use Rattle.std.specs.Prelude.{ℕ, ◌<◌};
ghost use Rattle.names.specs.Names.{PositionAsk};

use entries::Entry;
use std::io;
use std::io::Write;
use symbols::Rule;

// The upper-case hex digits, each at its value.
const DIGITS: [u8; 16] = *b"0123456789ABCDEF";

// A byte from space to tilde as it is, but a backslash and any other as a backslash and two hex digits.
fn say_byte<W: Write>(out: &mut W, byte: u8) -> io::Result<()> {
    let is_plain = (b' '..=b'~').contains(&byte) && byte != b'\\';
    if is_plain {
        out.write_all(&[byte])
    } else {
        out.write_all(&[
            b'\\',
            DIGITS[usize::from(byte / 16)],
            DIGITS[usize::from(byte % 16)],
        ])
    }
}

// A name, byte by byte.
fn say_name<W: Write>(out: &mut W, name: &[u8]) -> io::Result<()> {
    for byte in name {
        say_byte(out, *byte)?;
    }
    Ok(())
}

// A name's line: position, block, stored shared count, full length, name. The count of a block's first name is 0.
fn say_line<W: Write>(
    out: &mut W,
    position: usize,
    k: usize,
    before: &[u8],
    name: &[u8],
) -> io::Result<()>
    requires { 0 < k }
{
    let count = if position % k == 0 {
        0
    } else {
        symbols::shared_symbols(Rule::Plain, before, name)
    };
    write!(out, "{position} {} {count} {} ", position / k, name.len())?;
    say_name(out, name)?;
    writeln!(out)
}

// The lines of all names.
fn say_lines<W: Write>(out: &mut W, book: &[u8], t: trailer::Trailer) -> io::Result<()>
    requires { (i : ℕ) → i < t.names → PositionAsk book.now t i }
{
    let n = usize::from(t.names);
    let k = usize::from(t.block);
    let mut before: Option<Entry> = None;
    for i in 0..n {
        let entry = names::read_name(book, t, i);
        let last = before.as_ref().map_or(&[][..], Entry::bytes);
        say_line(out, i, k, last, entry.bytes())?;
        before = Some(entry);
    }
    Ok(())
}

// The first line: names, block size, nodes, bytes.
fn say_head<W: Write>(out: &mut W, t: trailer::Trailer, bytes: usize) -> io::Result<()> {
    let trailer::Trailer {
        names,
        block,
        nodes,
        ..
    } = t;
    writeln!(
        out,
        "names {names} block {block} nodes {nodes} bytes {bytes}"
    )
}

// The listing of a book; of bytes that are none, the line `refused 2`.
pub fn list<W: Write>(out: &mut W, book: &[u8]) -> io::Result<()> {
    let Some(t) = accept::check_book(book) else {
        return out.write_all(b"refused 2\n");
    };
    say_head(out, t, book.len())?;
    say_lines(out, book, t)
}
