// UNDO: the state before the last of the standing steps, reached again from the nearest kept state at or below it, or from the start records.
ghost use Rattle.std.specs.Prelude.{◌≡◌, Option, Some, None, Result, option_map, ◌+◌, ◌*◌, ◌≤◌, ◌<◌, ltb, length, IfOk, if◌then◌else◌};
ghost use Rattle.rules.specs.Words.{refusal};
ghost use Rattle.rules.specs.Names.{kept_length};
ghost use Rattle.rules.specs.Kept.{kept_offset, kept_state, kept_right};
ghost use Rattle.rules.specs.Undo as rules;
ghost use Rattle.record.specs.Refusals.{told_number};
ghost use Rattle.state.specs.View.{as_state};

use crate::begin;
use record::{Record, Refusal};
use state::State;

// Takes the last step back, or refuses and leaves the state as it was. Its copies of the state have a frame of their own.
#[inline(never)]
pub(crate) fn undo(list: &[u8], state: &mut State, log: &[u8], kept: &[u8]) -> Result<(), Refusal>
    requires { state.old.b < 256 }
    ensures { record { number = told_number result; state = as_state state.new } ≡ rules.undo list.now (as_state state.old) (record { log = log.now; kept = kept.now }) }
{
    let mut back = nearest(list, state, log, kept)?;
    let target = state.m - 1;
    let before = Record::KEPT_EVERY * (target / Record::KEPT_EVERY);
    let first = state.n as u16 + before;
    if replaying::replay(list, log, &mut back, first, target - before).is_err() {
        return Err(Refusal::Log);
    }
    back.m = target;
    *state = back;
    Ok(())
}

// The state that a replay begins with, that in a kept place or that of the start records; or the first of the tests before it that refuses.
fn nearest(list: &[u8], state: &State, log: &[u8], kept: &[u8]) -> Result<State, Refusal>
    ensures number { told_number result ≡ refusal (rules.before_replay list.now (as_state state.now) (record { log = log.now; kept = kept.now })) }
    ensures state { IfOk result (λ s. as_state s ≡ rules.nearest_state list.now (record { log = log.now; kept = kept.now }) state.now.b (rules.nearest state.now.m)) }
{
    whole::judged(list, state)?;
    if state.m == 0 {
        return Err(Refusal::Empty);
    }
    if kept.len() < Record::KEPT_LENGTH * Record::MAX_KEPT {
        return Err(Refusal::Room);
    }
    let place = (state.m - 1) / Record::KEPT_EVERY;
    let short = log_short(log, state);
    if place == 0 {
        if short || !starts::right(log, state.n, state.b) {
            return Err(Refusal::Log);
        }
        return Ok(begin::begun(list, state.b, log));
    }
    let back = in_place(list, kept, state.b, place).ok_or(Refusal::State)?;
    if short {
        return Err(Refusal::Log);
    }
    Ok(back)
}

// Whether a log is too short for the records of the state's steps.
fn log_short(log: &[u8], state: &State) -> bool
    ensures { result ≡ ltb (length log.now) (2 * (state.now.n + state.now.m)) }
{
    log.len() < 2 * (state.n as usize + state.m as usize)
}

// The state in a kept place that the buffer has, where it may be gone on from.
fn in_place(list: &[u8], kept: &[u8], b: u8, place: u16) -> Option<State>
    requires { (1 ≤ place) × (kept_offset place + kept_length ≤ length kept.now) }
    ensures { option_map as_state result ≡ (if kept_right list.now kept.now b place then Some (kept_state kept.now place) else None) }
{
    let at = Record::KEPT_LENGTH * (place as usize - 1);
    usable::state(list, &kept[at..], b, place)
}
