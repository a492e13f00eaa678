// The walk over a file of cases, the same for all calls. Nothing is taken on trust: whatever the file holds, the program is safe and ends.
ghost use Rattle.std.specs.Prelude.{◌≡◌, length, IfSome};
ghost use Rattle.std.specs.Io.{ReadsAtMost};
ghost use Rattle.cases.specs.Places.{CaseTaken};

use crate::parts::Parts;
use std::io::Write;
use std::rt::Files;
use std::{fs, io};

// What a set of cases calls.
pub trait Case<'a>: Sized {
    // Cuts the next case off. One that is cut off is none, and what is before it the last.
    fn read(parts: &mut Parts<'a>) -> Option<Self>
        ensures { IfSome result (λ _. CaseTaken parts.old parts.new) };

    // Makes the calls, and prints the case's line.
    fn print<W: Write>(self, out: &mut W, number: usize) -> io::Result<()>;
}

// Reads a file as far as there is space, and gives the number of bytes read.
fn load<R: Files>(rt: &R, path: &str, space: &mut [u8]) -> io::Result<usize>
    ensures read { ReadsAtMost result space.new }
    ensures kept { length space.new ≡ length space.old }
{
    let mut file = fs::open(rt, path)?;
    input::read_full(&mut file, space)
}

// Runs the cases one after the other. Each takes at least a byte, so there are no more cases than bytes.
fn run_all<'a, C: Case<'a>, W: Write>(out: &mut W, file: &'a [u8]) -> io::Result<()> {
    let mut parts = Parts::of(file);
    for number in 0..file.len() {
        let Some(case) = C::read(&mut parts) else {
            break;
        };
        case.print(out, number)?;
    }
    Ok(())
}

// Prints the lines of all cases of a file. It is read into the space.
pub fn run<'a, C: Case<'a>, R: Files, W: Write>(
    rt: &R,
    out: &mut W,
    path: &str,
    space: &'a mut [u8],
) -> io::Result<()> {
    let size = load(rt, path, space)?;
    run_all::<C, W>(out, &space[..size])
}
