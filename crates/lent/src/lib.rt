// A run's state that is lent and advanced in place.
#![tactic(auto)]

ghost use Rattle.state.specs.View.{as_state};
ghost use Rattle.lent.specs.Promises.{AdvancePromise};

use record::Pick;
use run::{Calls, State};

// One step of the state lent, by the pick of a station and its reset. It answers 0 or the number of the refusal. A step taken leaves the
// later state in its place and writes its record to the log and, at a multiple of 64, that state to its kept place; a refusal leaves all three
// as they were.
pub fn advance(
    state: &mut State,
    list: &[u8],
    log: &mut [u8],
    kept: &mut [u8],
    station: u8,
    reset: u8,
) -> u8
    ensures { AdvancePromise list.now (as_state state.old) (record { log = log.old; kept = kept.old }) (record { station = station; reset = reset }) result state.new (record { log = log.new; kept = kept.new }) }
{
    let taken = state.step(list, log, kept, Pick { station, reset });
    if taken.number == 0 {
        *state = taken.state;
    }
    taken.number
}
