// What a program reads: bytes of any reader, as far as there is space, with nothing allocated.
#![tactic(auto)]

ghost use Rattle.std.specs.Prelude.{◌≡◌, length};
ghost use Rattle.std.specs.Io.{ReadsAtMost};

use std::io;
use std::io::Read;

// Reads until the input ends or the space is full, and gives the number of bytes read. Where reading fails, the space is as long as before.
pub fn read_full<R: Read>(from: &mut R, space: &mut [u8]) -> io::Result<usize>
    ensures read { ReadsAtMost result space.new }
    ensures kept { length space.new ≡ length space.old }
{
    let mut size = 0;
    for _ in 0..u64::MAX {
        let count = from.read(&mut space[size..])?;
        if count == 0 {
            break;
        }
        size += count;
    }
    Ok(size)
}
