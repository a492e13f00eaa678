// Yes or no for each of up to 2,000 numbers, in 250 bytes. Numbers are noted in rising order, so a number's bit is 0 until it is noted, and
// adding sets it.
#![tactic(auto)]

ghost use Rattle.std.specs.Prelude.{◌≡◌, ◌<◌, List, ℕ};
ghost use Rattle.notes.specs.Notes.{NoteMade, Noting, noted};

use std::marker::Model;

// The notes. A clause sees their bytes, of which `noted` tells what they say of a number.
#[derive(Clone, Copy)]
pub struct Notes {
    bytes: [u8; 250],
}

impl Model for Notes {
    ghost Value = { List ℕ };

    ghost view = { λ s. s.bytes };

    ghost inverse = { λ bytes. record { bytes = bytes } };
}

impl Notes {
    // Notes in which nothing is noted.
    pub fn new() -> Self
        ensures { Noting result 0 }
    {
        Notes { bytes: [0; 250] }
    }

    // Notes yes for number i, which is above all that are noted.
    pub fn note(&mut self, i: usize)
        requires { Noting self.old i × (i < 2000) }
        ensures { NoteMade self.old self.new i }
    {
        let bytes = &mut self.bytes;
        bytes[i / 8] += 1 << (i % 8);
    }

    // Whether yes is noted for number i.
    pub fn has(&self, i: usize) -> bool
        requires { i < 2000 }
        ensures { result ≡ noted self.now i }
    {
        let bytes = &self.bytes;
        (bytes[i / 8] >> (i % 8)) % 2 == 1
    }
}
