// The listing program: a book on standard input, and its listing on standard output, by `listing::list`.
#![tactic(auto)]

use std::io;
use std::io::Write;

// One byte more than the longest book has: where it comes, the bytes are no book, and what follows it does not matter.
const MOST: usize = 65536;

fn main(rt: HostRuntime) -> io::Result<()> {
    let mut bytes = [0u8; MOST];
    let size = input::read_full(&mut rt.reader(), &mut bytes)?;
    let mut out = io::writer(&rt);
    listing::list(&mut out, &bytes[..size])?;
    out.flush()
}
