// The building program: list records on standard input, at most 65,536 bytes, and their book with blocks of 16 names on standard output.
// Whatever is wrong is one line on standard error, and standard output then stays empty. The work is done by `book::book_build`.
#![tactic(auto)]

use std::io;

// The longest input.
const MOST: usize = 65536;

// Writes out the book of a list, or says why there is none. The room holds the longest book.
fn make(rt: &(impl Print + Eprint), list: &[u8]) -> io::Result<()> {
    let mut room = [0u8; 65535];
    let answer = book::book_build(list, 16, &mut room);
    if answer.code == 0 {
        rt.write_all(&room[..answer.first])
    } else {
        eprintln!(rt; "refused {} {}", answer.code, answer.first)
    }
}

// Asks for one byte more than may come: where it comes, the input is too long.
fn main(rt: HostRuntime) -> io::Result<()> {
    let mut list = [0u8; MOST + 1];
    let size = input::read_full(&mut rt.reader(), &mut list)?;
    if size <= MOST {
        make(&rt, &list[..size])
    } else {
        eprintln!(rt; "input too long")
    }
}
