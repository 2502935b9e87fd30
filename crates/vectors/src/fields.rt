// The fields of a case: each is a length of two bytes and so many bytes. A number has its low byte first, and is 0 past the stream's end.

use std::io::Read;

// Bytes of a field, at most: what a length of two bytes can say.
pub const MAX_FIELD: usize = u16::MAX as usize;

// A buffer for a field. It is a function, since a literal of so many bytes costs the check more wherever one is lent.
pub(crate) fn buffer() -> [u8; MAX_FIELD] {
    [0; MAX_FIELD]
}

// Reads a field, as much of it as the buffer has room for and the stream has left, and answers the part of the buffer that it came to.
pub fn field<'a>(file: &mut impl Read, buffer: &'a mut [u8]) -> &'a mut [u8] {
    let room = (half(file) as usize).min(buffer.len());
    let count = files::fill(file, &mut buffer[..room]);
    &mut buffer[..count]
}

// Reads a field that is always of N bytes; its length is read over.
pub(crate) fn fixed<const N: usize>(file: &mut impl Read) -> [u8; N] {
    half(file);
    bytes(file)
}

// Reads N bytes, each apart.
fn bytes<const N: usize>(file: &mut impl Read) -> [u8; N] {
    let mut bytes = [0; N];
    for byte in bytes.chunks_mut(1) {
        files::fill(file, byte);
    }
    bytes
}

// Reads a number of one byte.
pub fn byte(file: &mut impl Read) -> u8 {
    u8::from_le_bytes(bytes(file))
}

// Reads a number of two bytes, as a field's length is.
pub(crate) fn half(file: &mut impl Read) -> u16 {
    u16::from_le_bytes(bytes(file))
}

// Reads a number of four bytes.
pub(crate) fn word(file: &mut impl Read) -> u32 {
    u32::from_le_bytes(bytes(file))
}
