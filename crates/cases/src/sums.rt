// A checksum: two sums modulo 65,521.
ghost use Rattle.std.specs.Prelude.{◌<◌};

use std::fmt;

#[derive(Clone, Copy)]
pub struct Sums {
    // of 1 and the numbers
    numbers: usize,
    // of what that sum was after each number
    sums: usize,
    ghost reduced: { (numbers < 65521) × (sums < 65521) },
}

impl Sums {
    // The checksum of no numbers.
    pub fn new() -> Self {
        Sums {
            numbers: 1,
            sums: 0,
        }
    }

    // The checksum of bytes.
    pub fn of(bytes: &[u8]) -> Self {
        let mut sums = Sums::new();
        for byte in bytes {
            sums.add(usize::from(*byte));
        }
        sums
    }

    // Takes in one number more.
    pub fn add(&mut self, number: usize) {
        self.numbers = (self.numbers + number % 65521) % 65521;
        self.sums = (self.sums + self.numbers) % 65521;
    }
}

impl fmt::Display for Sums {
    fn fmt<W: fmt::Write>(&self, f: &mut fmt::Formatter<W>) -> fmt::Result {
        write!(f, "{} {}", self.numbers, self.sums)
    }
}
