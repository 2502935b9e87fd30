// The state in a kept place, where it may be gone on from, over any list and any part of a buffer that begins at the place.
#![tactic(auto)]

ghost use Rattle.std.specs.Prelude.{◌≡◌, Some, None, option_map, if◌then◌else◌};
ghost use Rattle.state.specs.View.{as_state};
ghost use Rattle.recalling.specs.Recalled.{recalled};
ghost use Rattle.usable.specs.Usable.{usable};

use record::Record;
use state::State;

// The state that the part begins with, where it is sound against the list, has as many steps as its place says and has b for its largest
// reset. In a part that is cut off there is none. Its copies of the state have a frame of their own.
#[inline(never)]
pub fn state(list: &[u8], part: &[u8], b: u8, place: u16) -> Option<State>
    ensures { option_map as_state result ≡ (if usable list.now part.now b place then Some (recalled part.now) else None) }
{
    if !recalling::zeros(part) {
        return None;
    }
    let state = recalling::state(part);
    if whole::sound(list, &state)
        && state.m as usize == Record::KEPT_EVERY as usize * place as usize
        && state.b == b
    {
        return Some(state);
    }
    None
}

// Whether there is one.
pub fn right(list: &[u8], part: &[u8], b: u8, place: u16) -> bool
    ensures { result ≡ usable list.now part.now b place }
{
    state(list, part, b, place).is_some()
}
