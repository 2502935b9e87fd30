// The replay of a log's records on a state.
#![tactic(auto)]

ghost use Rattle.std.specs.Prelude.{◌≡◌};
ghost use Rattle.record.specs.Refusals.{told_number};
ghost use Rattle.state.specs.View.{as_state};
ghost use Rattle.replaying.specs.Replayed.{replayed};

use record::{Pick, Refusal};
use state::State;

// Replays so many records of a log, from a record on, on any list and any state, which is changed where it is; or refuses with the refusal of the
// first that is refused. A record past the end of the log is zeros. The steps that stand are the caller's to count.
pub fn replay(
    list: &[u8],
    log: &[u8],
    state: &mut State,
    first: u16,
    count: u16,
) -> Result<(), Refusal>
    ensures { record { number = told_number result; state = as_state state.new } ≡ replayed list.now log.now first count (as_state state.old) }
{
    let start = first as usize;
    for i in start..start + count as usize {
        if let Err(refusal) = picking::pick(list, state, Pick::at(log, i)) {
            return Err(refusal);
        }
    }
    Ok(())
}
