// The state in a kept place, read from the bytes of a buffer that begin there. docs/KEPT.md gives the bytes of a kept place. Where there
// are fewer than its 184 everything is zero.
#![tactic(auto)]

ghost use Rattle.std.specs.Prelude.{◌≡◌, ℕ, List, ◌&&◌, ◌+◌, ◌*◌, ◌≤◌, leb, length};
ghost use Rattle.rules.specs.Words.{values};
ghost use Rattle.rules.specs.Names.{kept_length};
ghost use Rattle.rules.specs.Records.{half, word};
ghost use Rattle.rules.specs.Kept.{lowered, kept_zeros};
ghost use Rattle.state.specs.View.{as_state};
ghost use Rattle.recalling.specs.Recalled.{recalled};

use record::Record;
use state::State;

// The state in the place.
pub fn state(part: &[u8]) -> State
    ensures { as_state result ≡ recalled part.now }
{
    if part.len() < Record::KEPT_LENGTH {
        return State::zeros();
    }
    State {
        vars: row(part, 0),
        positions: row(part, Record::KEPT_POSITIONS),
        priorities: row(part, Record::KEPT_PRIORITIES),
        counts: row(part, Record::KEPT_COUNTS),
        n: part[Record::KEPT_N],
        b: part[Record::KEPT_N + 1],
        m: u16::read(part, Record::KEPT_N + 2),
    }
}

// Whether the bytes are there and those that are said to be zero are.
pub fn zeros(part: &[u8]) -> bool
    ensures { result ≡ (leb kept_length (length part.now) && kept_zeros part.now 1) }
{
    if part.len() < Record::KEPT_LENGTH {
        return false;
    }
    let order = &part[Record::KEPT_ORDER..Record::KEPT_LENGTH];
    order.iter().all(|byte| *byte == 0)
}

// A row of numbers that are kept in N bytes each, from an offset on.
fn row<const N: usize, const LEN: usize, T: Spelled<N>>(part: &[u8], at: usize) -> [T; LEN]
    requires { at + N * LEN ≤ length part.now }
    ensures { result ≡ values (λ i. T.spelled part.now (at + N * i)) LEN }
{
    let mut row = [T::default(); LEN];
    for i in 0..LEN {
        row[i] = T::read(part, at + N * i);
    }
    row
}

// A number that is kept in N bytes, low byte first.
trait Spelled<const N: usize>: Copy + Default {
    // what the bytes from an offset on spell
    ghost spelled: { List ℕ → ℕ → Self };

    fn read(part: &[u8], at: usize) -> Self
        requires { at + N ≤ length part.now }
        ensures { result ≡ spelled part.now at };
}

impl Spelled<4> for u32 {
    ghost spelled = { word };

    fn read(part: &[u8], at: usize) -> u32 {
        u32::from_le_bytes([part[at], part[at + 1], part[at + 2], part[at + 3]])
    }
}

impl Spelled<2> for u16 {
    ghost spelled = { half };

    fn read(part: &[u8], at: usize) -> u16 {
        u16::from_le_bytes([part[at], part[at + 1]])
    }
}

impl Spelled<2> for i16 {
    ghost spelled = { λ part at. lowered (half part at) };

    fn read(part: &[u8], at: usize) -> i16 {
        lowered(u16::read(part, at))
    }
}

// The priority that is kept as this number, 32,768 less.
fn lowered(x: u16) -> i16
    ensures { result ≡ lowered x }
{
    (x as i32 - 32768) as i16
}
