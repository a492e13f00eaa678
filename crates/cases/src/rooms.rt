// What a room holds before a call.

// Fills a room so that a byte that a call should not have touched shows.
pub fn fill(room: &mut [u8]) {
    for (i, byte) in room.iter_mut().enumerate() {
        *byte = (i % 251) as u8;
    }
}
