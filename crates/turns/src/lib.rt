// The pick order, of what is known of the stations: which are ready, their priorities, and what the picked one's readiness tells.
#![tactic(auto)]

ghost use Rattle.std.specs.Prelude.{◌≡◌, false, true, Option, Some, None, ◌&&◌, ◌||◌, not, [], ◌∷◌, eqb, ltb, get_or, option_map, unwrap_or, is_some, if◌then◌else◌};
ghost use Rattle.std.specs.Int.Signed.{lt_z};
ghost use Rattle.rules.specs.Words.{first, ◌refuses◌at◌, refusal};
ghost use Rattle.rules.specs.Names.{TURN, RESET};
ghost use Rattle.rules.specs.State.{priority_in};
ghost use Rattle.rules.specs.Turn.{yields_to, lowest_of};

use record::{Record, entry};

// Whether none of n stations is ready and has a lower priority than station i.
pub fn lowest_of(all: &[bool; 8], priorities: &[i16; 8], n: usize, i: usize) -> bool
    ensures { result ≡ lowest_of n (λ j. get_or all.now j false) (priority_in priorities.now) i }
{
    let own = entry(priorities, i, 0);
    (0..n).all(|j| yields(entry(all, j, false), own, entry(priorities, j, 0)))
}

// Whether a station of priority other, ready or not, does not come before one of priority own.
fn yields(ready: bool, own: i16, other: i16) -> bool
    ensures { result ≡ yields_to ready own other }
{
    !ready || own <= other
}

// The lowest-numbered of the ready stations of lowest priority, of n stations, if one is ready.
pub fn first_in_turn(all: &[bool; 8], priorities: &[i16; 8], n: usize) -> Option<usize>
    ensures { (unwrap_or result n ≡ first (λ i. get_or all.now i false && lowest_of n (λ j. get_or all.now j false) (priority_in priorities.now) i) n) × (is_some result ≡ ltb (unwrap_or result n) n) }
{
    let mut found = None;
    for j in 0..n {
        if entry(all, j, false) && comes_before(priorities, j, found) {
            found = Some(j);
        }
    }
    found
}

// Whether station j has a lower priority than the station found, or none is found yet.
fn comes_before(priorities: &[i16; 8], j: usize, found: Option<usize>) -> bool
    ensures { result ≡ unwrap_or (option_map (λ i. lt_z (priority_in priorities.now j) (priority_in priorities.now i)) found) true }
{
    match found {
        Some(i) => entry(priorities, j, 0) < entry(priorities, i, 0),
        None => true,
    }
}

// What refuses the pick of a station of the list: what its readiness tells, 0 where it is ready; then that it is not lowest, and that the
// reset is above b. 0 where nothing does.
pub fn pick_refusal(told: u8, lowest: bool, above: bool) -> u8
    ensures { result ≡ (if eqb told 0 then refusal ((not lowest refuses TURN at 0) ∷ (above refuses RESET at 0) ∷ []) else told) }
{
    if told != 0 {
        return told;
    }
    if !lowest {
        return Record::TURN;
    }
    if above {
        return Record::RESET;
    }
    0
}
