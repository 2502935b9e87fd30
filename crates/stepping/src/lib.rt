// One step of a state, its record in the log and the state that it keeps, past the tests of the list and of the state.
#![tactic(auto)]

ghost use Rattle.std.specs.Prelude.{◌≡◌};
ghost use Rattle.record.specs.Refusals.{told_number};
ghost use Rattle.record.specs.View.{as_pick};
ghost use Rattle.state.specs.View.{as_state};
ghost use Rattle.stepping.specs.Logged.{logged};

use record::{Pick, Record, Refusal};
use state::State;

// One step of a state, which is changed where it is, on any list and state: a record more in the log and, at a multiple of 64, the state after it
// in its kept place; or the refusal and nothing changed. On a list and a state that are sound it is STEP.
pub fn logged(
    list: &[u8],
    state: &mut State,
    log: &mut [u8],
    kept: &mut [u8],
    pick: Pick,
) -> Result<(), Refusal>
    ensures { record { number = told_number result; state = as_state state.new; lent = record { log = log.new; kept = kept.new } } ≡ logged list.now (as_state state.old) (record { log = log.old; kept = kept.old }) (as_pick pick) }
{
    if Record::MAX_STEPS <= state.m {
        return Err(Refusal::Full);
    }
    if !logs::room(log, state.n, state.m) {
        return Err(Refusal::Room);
    }
    if kept.len() < Record::KEPT_LENGTH * Record::MAX_KEPT {
        return Err(Refusal::Room);
    }
    picking::pick(list, state, pick)?;
    logs::put(log, state.n, state.m, pick);
    state.m += 1;
    keeping::keep(kept, state);
    Ok(())
}
