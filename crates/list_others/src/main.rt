// Runs the listing where `list_book` does not, and the gate holds what it prints to the file `stdout`: bytes that are no book, a book
// without names, a book of names with bytes that are escaped, a folded book, whose counts are of bytes, and a book by columns.
#![tactic(auto)]

ghost use Rattle.std.specs.Prelude.{ℕ, ◌≡◌, ◌≤◌, length};

use book::Answer;
use std::io;
use std::io::Write;

// Lists the book of records in blocks of so many names, as a call builds it: what it counts where it accepts stands in its room.
fn list_built<W: Write, B: Fn(&[u8], usize, &mut [u8]) -> Answer>(
    out: &mut W,
    build: B,
    records: &[u8],
    block: usize,
) -> io::Result<()>
    requires callable { B.IsAlwaysCallable build }
    requires within { (list : _) (k : ℕ) (room : _) (answer : Answer) (after : _) → B.post build list k room answer after →
        answer.code ≡ 0 → answer.first ≤ length after.now }
{
    let mut room = [0u8; 500];
    let answer = build(records, block, &mut room);
    if answer.code == 0 {
        listing::list(out, &room[..answer.first])?;
    }
    Ok(())
}

fn main(rt: HostRuntime) -> io::Result<()> {
    let mut out = io::writer(&rt);
    let escaped = b"\x04\x00\x1F ~\x05\x00\x1F ~\x7F\x03A\\B\x04\xC3\x87ay\x01\xFF";
    listing::list(&mut out, b"")?;
    listing::list(&mut out, b"\x03Mar\x06Marina")?;
    list_built(&mut out, book::book_build, b"", 64)?;
    list_built(&mut out, book::book_build, escaped, 3)?;
    list_built(
        &mut out,
        book::book_build_folded,
        b"\x03mar\x06Marina\x0DMARKET Square",
        4,
    )?;
    listing::list(
        &mut out,
        b"\x00\x03Mar\x03\x03ina\x00\x0DMarket Square\x00\x00\x0A\x00\x00\x00\x00\x00j\x00l\x00\x03\x00\x04\x00\x07\x00\x0E\x00\x00\x00\x00\x00\x01\x00\x02\x00\x03\x00\x01\x00\x01\x00\x01\x00\x04\x00\x01\x00\x01\x00\x01\x00\x0D\x00\x03\x00\x06\x00\x0D\x00\x03\x00\x02\x00\x19\x00\x1D\x00\x04\x00]\x00NBC2",
    )?;
    out.flush()
}
