// STEP, and RUN as single steps until the first refusal, the end of the picks or the most-steps number. The state is changed where it is.
ghost use Rattle.std.specs.Prelude.{◌≡◌, ◌<◌};
ghost use Rattle.rules.specs.Words.{refusal};
ghost use Rattle.rules.specs.Step as rules_step;
ghost use Rattle.rules.specs.Run as rules_run;
ghost use Rattle.laws.specs.Passed.{Known};
ghost use Rattle.fair.specs.Sound.{Held};
ghost use Rattle.record.specs.Refusals.{told_number};
ghost use Rattle.record.specs.View.{as_pick};
ghost use Rattle.state.specs.View.{as_state};

use record::{Pick, Refusal};
use state::State;

// One step: the tests of the list and of the state, and `stepping` past those.
pub(crate) fn step(
    list: &[u8],
    state: &mut State,
    log: &mut [u8],
    kept: &mut [u8],
    pick: Pick,
) -> Result<(), Refusal>
    requires { state.old.b < 256 }
    ensures { record { number = told_number result; state = as_state state.new; lent = record { log = log.new; kept = kept.new } } ≡ rules_step.step list.now (as_state state.old) (record { log = log.old; kept = kept.old }) (as_pick pick) }
{
    whole::judged(list, state)?;
    stepping::logged(list, state, log, kept, pick)
}

// What ends a run, and the steps taken before.
pub(crate) fn steps(
    list: &[u8],
    state: &mut State,
    log: &mut [u8],
    kept: &mut [u8],
    picks: &[u8],
    most: usize,
) -> (Result<(), Refusal>, usize)
    requires { Held (as_state state.old) × (state.old.b < 256) }
    ensures { record { number = told_number result.0; state = as_state state.new; steps = result.1; lent = record { log = log.new; kept = kept.new } } ≡ rules_run.run list.now (as_state state.old) (record { log = log.old; kept = kept.old }) picks.now most }
{
    if let Err(refusal) = tested(list, state, picks) {
        return (Err(refusal), 0);
    }
    counted(list, state, log, kept, picks, most.min(picks.len() / 2))
}

// Refuses picks that are odd in length, and then a list or a state that is not sound.
fn tested(list: &[u8], state: &State, picks: &[u8]) -> Result<(), Refusal>
    ensures { told_number result ≡ refusal (rules_run.run_tests list.now (as_state state.now) picks.now) }
{
    if picks.len() % 2 == 1 {
        return Err(Refusal::Length);
    }
    whole::judged(list, state)
}

// So many steps, by the first of the picks, on a list and a state that are sound.
fn counted(
    list: &[u8],
    state: &mut State,
    log: &mut [u8],
    kept: &mut [u8],
    picks: &[u8],
    count: usize,
) -> (Result<(), Refusal>, usize)
    requires { Known list.now (as_state state.old) × Held (as_state state.old) × (state.old.b < 256) }
    ensures { record { number = told_number result.0; state = as_state state.new; steps = result.1; lent = record { log = log.new; kept = kept.new } } ≡ rules_run.steps_from list.now picks.now 0 count (as_state state.old) (record { log = log.old; kept = kept.old }) }
{
    for steps in 0..count {
        if let Err(refusal) = stepping::logged(list, state, log, kept, Pick::at(picks, steps)) {
            return (Err(refusal), steps);
        }
    }
    (Ok(()), count)
}
