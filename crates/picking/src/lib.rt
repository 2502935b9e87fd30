// One pick of a state: its tests, and the charge, the counts and the move of the station picked. The state is changed where it is. Whatever is
// judged before the step is judged before anything is written, and the last test is made before a body runs.
#![tactic(auto)]

ghost use Rattle.std.specs.Prelude.{◌≡◌};
ghost use Rattle.laws.specs.Narrow.{narrow};
ghost use Rattle.record.specs.Refusals.{told_number};
ghost use Rattle.record.specs.View.{as_pick};
ghost use Rattle.state.specs.View.{as_state};
ghost use Rattle.picking.specs.Took.{picked};

use record::{Pick, Record, Refusal};
use state::State;

// Picks a station, of any list and any state, of eight stations at most, and the step is taken; or refuses the pick with 10, 16, 11, 12 or 13,
// and nothing is changed. The steps that stand are the caller's to count.
pub fn pick(list: &[u8], state: &mut State, pick: Pick) -> Result<(), Refusal>
    ensures { record { number = told_number result; state = as_state state.new } ≡ picked (narrow list.now) (as_state state.old) (as_pick pick) }
{
    let at = pick.station as usize;
    if state.n <= pick.station || Record::MAX_STATIONS <= at {
        return Err(Refusal::Component);
    }
    let own = state.priorities[at];
    let place = state.positions[at];
    let mut all = [false; 8];
    let lowest = stations::judge(list, state, own, &mut all);
    if !all[at] {
        stations::told_from(list, &state.vars, place)?;
    }
    if !lowest {
        return Err(Refusal::Turn);
    }
    if state.b < pick.reset {
        return Err(Refusal::Reset);
    }
    charging::charge(
        &mut state.priorities,
        &mut state.counts,
        &all,
        at,
        pick.reset,
    );
    state.positions[at] = moves::step(list, &mut state.vars, place);
    Ok(())
}
