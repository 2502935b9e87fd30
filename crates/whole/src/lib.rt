// Whether a state, taken whole, is sound against a list, of any values, and the two tests that most calls begin with. `soundness` has the
// clauses on positions, priorities and counts.
#![tactic(auto)]

ghost use Rattle.std.specs.Prelude.{◌≡◌};
ghost use Rattle.rules.specs.Words.{refusal};
ghost use Rattle.rules.specs.State.{sound_state};
ghost use Rattle.rules.specs.Lights.{lights_tests};
ghost use Rattle.record.specs.Refusals.{told_number};
ghost use Rattle.state.specs.View.{as_state};

use record::{Record, Refusal};
use state::State;

// Whether the state is sound against the list, whatever its variables hold.
pub fn sound(list: &[u8], state: &State) -> bool
    ensures { result ≡ sound_state list.now (as_state state.now) }
{
    let count = list::stations(list);
    state.n as usize == count
        && state.m <= Record::MAX_STEPS
        && soundness::placed(list, list::later(list, count), state)
        && soundness::bounded(state)
        && soundness::few_low(state)
        && soundness::empty(state)
}

// Refuses a list that is not sound, and then a state that is not sound against it.
pub fn judged(list: &[u8], state: &State) -> Result<(), Refusal>
    ensures { told_number result ≡ refusal (lights_tests list.now (as_state state.now)) }
{
    if !list::sound(list) {
        return Err(Refusal::List);
    }
    if !sound(list, state) {
        return Err(Refusal::State);
    }
    Ok(())
}
