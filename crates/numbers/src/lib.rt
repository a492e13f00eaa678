// Numbers of two bytes, read and written, and a copy of bytes.
#![tactic(auto)]

ghost use Rattle.std.specs.Prelude.{◌≡◌, [], ◌∷◌, ◌*◌, ◌+◌, ◌++◌, ◌<◌, ◌≤◌, drop, length, take};
ghost use Rattle.format.specs.Book.{number, numbers};

// The number of two bytes that stands at an offset.
pub fn number_at(book: &[u8], o: usize) -> usize
    requires { o + 2 ≤ length book.now }
    ensures { (result ≡ number book.now o) × (result < 65536) }
{
    usize::from(u16::from_le_bytes([book[o], book[o + 1]]))
}

// A number as its two bytes, low byte first; of a larger one only those that two bytes hold.
pub fn put16(part: &mut [u8], v: usize)
    requires { length part.old ≡ 2 }
    ensures { part.new ≡ numbers (v ∷ []) }
{
    let bytes = ((v % 65536) as u16).to_le_bytes();
    part[0] = bytes[0];
    part[1] = bytes[1];
}

// Numbers in a row, two bytes each.
pub fn put_numbers(part: &mut [u8], ns: &[usize])
    requires ns_len_bound { length ns.now ≤ 1000 }
    requires part_len { length part.old ≡ 2 * length ns.now }
    ensures { part.new ≡ numbers ns.now }
{
    for (i, n) in ns.iter().enumerate() {
        let a = 2 * i;
        let b = a + 2;
        put16(&mut part[a..b], *n);
    }
}

// Bytes at the front of a room, in which what lies behind them stays. One by one: `copy_from_slice` would be compiled into a call of memmove,
// and a guest has but memcpy and memset.
pub fn copy(bytes: &[u8], room: &mut [u8])
    requires { length bytes.now ≤ length room.old }
    ensures { (length room.new ≡ length room.old) × (room.new ≡ take (length bytes.now) bytes.now ++ drop (length bytes.now) room.old) }
{
    for i in 0..bytes.len() {
        room[i] = bytes[i];
    }
}
