// A state as 180 bytes, low bytes first: 32 variables of 4, 8 positions of 2, 8 priorities of 2 in two's complement, 8 counts of 2, n, b, and m
// of 2.
use crate::fields::{byte, half, word};
use crate::hash::{NONE, after};
use run::State;
use std::array;
use std::io::Read;

// Reads a field that is a state; its length, which is always 180, is read over.
pub(crate) fn state(file: &mut impl Read) -> State {
    half(file);
    State {
        vars: array::from_fn(|_| word(file)),
        positions: array::from_fn(|_| half(file)),
        priorities: array::from_fn(|_| half(file).cast_signed()),
        counts: array::from_fn(|_| half(file)),
        n: byte(file),
        b: byte(file),
        m: half(file),
    }
}

// H of a state's bytes.
pub(crate) fn hash_state(state: &State) -> u64 {
    let h = state
        .vars
        .iter()
        .fold(NONE, |h, x| after(h, &x.to_le_bytes()));
    let h = state
        .positions
        .iter()
        .fold(h, |h, x| after(h, &x.to_le_bytes()));
    let h = state
        .priorities
        .iter()
        .fold(h, |h, x| after(h, &x.to_le_bytes()));
    let h = state
        .counts
        .iter()
        .fold(h, |h, x| after(h, &x.to_le_bytes()));
    let h = after(h, &[state.n, state.b]);
    after(h, &state.m.to_le_bytes()) as u64
}
