// The picks of a trace: when a picks file is wrong, and one pick taken, which is a step or an undo.
#![tactic(auto)]

ghost use Rattle.std.specs.Prelude.{◌≡◌};
ghost use Rattle.rules.specs.Trace.{taken_pick, wrong_picks};
ghost use Rattle.record.specs.View.{as_pick};
ghost use Rattle.state.specs.View.{as_state};
ghost use Rattle.run.specs.View.{as_stepped};

use record::{Pick, Record};
use run::{Calls, Outcome, State};

// Bytes of a picks file, at most.
const MAX_PICKS: usize = 2 * Record::MAX_STEPS as usize;

// The pick that takes the last step back.
const UNDO: Pick = Pick {
    station: 255,
    reset: 0,
};

// Whether a picks file is odd or too long.
pub fn wrong(picks: &[u8]) -> bool
    ensures { result ≡ wrong_picks picks.now }
{
    picks.len() % 2 == 1 || MAX_PICKS < picks.len()
}

// One pick: (255, 0) takes the last step back, any other is a step.
pub fn taken(state: State, list: &[u8], log: &mut [u8], kept: &mut [u8], pick: Pick) -> Outcome
    ensures { as_stepped result (record { log = log.new; kept = kept.new }) ≡ taken_pick list.now (as_state state) (record { log = log.old; kept = kept.old }) (as_pick pick) }
{
    if pick == UNDO {
        return state.undo(list, log, kept);
    }
    state.step(list, log, kept, pick)
}
