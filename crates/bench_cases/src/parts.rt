// Parts of an image, of a certificate or of a job, each written at its place.

// Writes a part from a place on, as far as there is room.
pub fn place(bytes: &mut [u8], start: usize, part: &[u8]) {
    for (byte, new) in bytes.iter_mut().skip(start).zip(part) {
        *byte = *new;
    }
}
