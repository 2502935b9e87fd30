// The kept states of a case. A case has not their bytes but how they are made, in one field.

use crate::fields::{buffer, byte, field, half};
use std::io::Read;

// Reads that field: the buffer's length, two bytes; a byte f, by which byte i is f * (i + 1) mod 256; and then patches, each an offset and a
// count of two bytes and so many bytes that are put there. It answers the part of the buffer that they come to.
pub(crate) fn kept_field<'a>(file: &mut impl Read, kept: &'a mut [u8]) -> &'a mut [u8] {
    let mut made = buffer();
    let mut made: &[u8] = field(file, &mut made);
    let length = (half(&mut made) as usize).min(kept.len());
    let part = &mut kept[..length];
    fill(part, byte(&mut made));
    patch(part, made);
    part
}

// Makes byte i f * (i + 1) mod 256.
fn fill(kept: &mut [u8], f: u8) {
    let mut x: u8 = 0;
    for place in kept {
        x = x.wrapping_add(f);
        *place = x;
    }
}

// Puts the patches, one after another.
fn patch(kept: &mut [u8], patches: &[u8]) {
    let mut left = patches;
    while let Some((head, rest)) = left.split_first_chunk::<4>() {
        let [offset_low, offset_high, count_low, count_high] = *head;
        let offset = u16::from_le_bytes([offset_low, offset_high]) as usize;
        let count = u16::from_le_bytes([count_low, count_high]) as usize;
        let (bytes, rest) = rest.split_at(count.min(rest.len()));
        put(kept, offset, count, bytes);
        left = rest;
    }
}

// Puts so many bytes into the buffer at an offset, as far as it goes; those that the patch does not have are 0.
fn put(kept: &mut [u8], offset: usize, count: usize, bytes: &[u8]) {
    for (i, place) in kept.iter_mut().skip(offset).take(count).enumerate() {
        *place = bytes.get(i).copied().unwrap_or(0);
    }
}
