// Whole run states put into their kept places, over any buffer and any state whatever. docs/KEPT.md gives the bytes of a kept place.
#![tactic(auto)]

ghost use Rattle.std.specs.Prelude.{◌≡◌, refl, ℕ, List, ◌+◌, ◌*◌, ◌≤◌, length, if◌then◌else◌};
ghost use Rattle.rules.specs.Words.{joined, written};
ghost use Rattle.rules.specs.Names.{kept_length};
ghost use Rattle.rules.specs.Kept.{in_two, in_four, raised, encoded, keep};
ghost use Rattle.state.specs.View.{as_state};
ghost use Rattle.keeping.specs.Place.{has_place};

use record::Record;
use state::State;

// Puts the state into its kept place, where its steps are a multiple of 64 and the buffer has the place; else nothing.
pub fn keep(kept: &mut [u8], state: &State)
    ensures { kept.new ≡ (if has_place state.now.m kept.old then keep kept.old (as_state state.now) else kept.old) }
{
    if state.m == 0 || state.m % Record::KEPT_EVERY != 0 {
        return;
    }
    let j = (state.m / Record::KEPT_EVERY) as usize;
    let at = Record::KEPT_LENGTH * (j - 1);
    let end = at + Record::KEPT_LENGTH;
    if end <= kept.len() {
        put_state(&mut kept[at..end], state);
    }
}

// Fills a kept place with the state.
fn put_state(place: &mut [u8], state: &State)
    requires { length place.old ≡ kept_length }
    ensures { place.new ≡ encoded (as_state state.now) }
{
    put_row(place, 0, &state.vars);
    put_row(place, Record::KEPT_POSITIONS, &state.positions);
    put_row(place, Record::KEPT_PRIORITIES, &state.priorities);
    put_row(place, Record::KEPT_COUNTS, &state.counts);
    let [m, m_high] = state.m.to_le_bytes();
    place[Record::KEPT_N..].copy_from_slice(&[state.n, state.b, m, m_high, 0, 0, 0, 0]);
}

// Puts a row of numbers into N bytes each, from an offset on.
fn put_row<const N: usize, T: Spelled<N>>(place: &mut [u8], at: usize, row: &[T])
    requires { at + N * length row.now ≤ length place.old }
    ensures { place.new ≡ written place.old at (joined T.spelled row.now) }
{
    for (j, x) in row.iter().enumerate() {
        let start = at + N * j;
        place[start..start + N].copy_from_slice(&x.bytes());
    }
}

// A number that is kept in N bytes, low byte first.
trait Spelled<const N: usize>: Copy {
    ghost spelled: { Self → List ℕ };

    fn bytes(self) -> [u8; N]
        ensures { result ≡ spelled self };

    ghost sized: { (x : Self) → length (spelled x) ≡ N };
}

impl Spelled<4> for u32 {
    ghost spelled = { in_four };

    ghost sized = { λ x. refl };

    fn bytes(self) -> [u8; 4] {
        u32::to_le_bytes(self)
    }
}

impl Spelled<2> for u16 {
    ghost spelled = { in_two };

    ghost sized = { λ x. refl };

    fn bytes(self) -> [u8; 2] {
        u16::to_le_bytes(self)
    }
}

impl Spelled<2> for i16 {
    ghost spelled = { λ z. in_two (raised z) };

    ghost sized = { λ z. refl };

    fn bytes(self) -> [u8; 2] {
        u16::to_le_bytes(raised(self))
    }
}

// A priority as a number that is not negative, 32,768 more.
fn raised(priority: i16) -> u16
    ensures { result ≡ raised priority }
{
    (priority as i32 + 32768) as u16
}
