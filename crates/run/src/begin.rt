// Where a run begins: START, and the state of a log's start records, from which undo replays too.
ghost use Rattle.std.specs.Prelude.{◌≡◌, true};
ghost use Rattle.rules.specs.List.{sound_list};
ghost use Rattle.rules.specs.State.{zeros};
ghost use Rattle.rules.specs.Start as rules;
ghost use Rattle.rules.specs.Undo.{restarted};
ghost use Rattle.record.specs.Refusals.{told_number};
ghost use Rattle.state.specs.View.{as_state};
ghost use Rattle.run.specs.View.{as_answer};
ghost use Rattle.run.specs.Promises.{StartPromise};

use crate::{Outcome, answered};
use record::{Record, Refusal};
use state::State;

// The start of a run, with a reset for each station and b the largest reset from then on. It writes a start record for each station to the
// log, and nothing of the kept states; a refusal answers a state of zeros and writes nothing.
pub fn start(list: &[u8], b: u8, resets: &[u8], log: &mut [u8], kept: &[u8]) -> Outcome
    ensures { StartPromise list.now b resets.now (record { log = log.old; kept = kept.now }) result (record { log = log.new; kept = kept.now }) }
{
    answered(started(list, b, resets, log, kept), State::zeros())
}

// The state that a run begins with.
fn started(list: &[u8], b: u8, resets: &[u8], log: &mut [u8], kept: &[u8]) -> Result<State, Refusal>
    ensures { record { number = told_number result; state = as_answer result zeros; lent = record { log = log.new; kept = kept.now } } ≡ rules.start list.now b resets.now (record { log = log.old; kept = kept.now }) }
{
    if !list::sound(list) {
        return Err(Refusal::List);
    }
    let n = list::stations(list);
    if resets.len() != n {
        return Err(Refusal::Reset);
    }
    if !starts::resets_within(resets, b) {
        return Err(Refusal::Reset);
    }
    if log.len() < 2 * n {
        return Err(Refusal::Room);
    }
    if kept.len() < Record::KEPT_LENGTH * Record::MAX_KEPT {
        return Err(Refusal::Room);
    }
    starts::write(log, resets);
    Ok(begun(list, b, log))
}

// The state with no steps, by the start records of a log.
pub(crate) fn begun(list: &[u8], b: u8, log: &[u8]) -> State
    requires { sound_list list.now ≡ true }
    ensures { as_state result ≡ restarted list.now log.now b }
{
    let n = list::stations(list);
    let initials = list::later(list, n) - n;
    let mut vars = [0; 32];
    moves::initial_run(list, n, initials, &mut vars);
    State {
        vars,
        positions: outset::first_steps(list, n),
        priorities: outset::first_priorities(log, n),
        counts: [0; 8],
        n: n as u8,
        b,
        m: 0,
    }
}
