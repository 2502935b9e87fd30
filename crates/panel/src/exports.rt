// The calls, each under a plain name of its own, by which C calls it too: `panel_c` hands each on to C, and panel/press.h declares it there.
ghost use Rattle.sequence.specs.Promises.{CheckPromise};
ghost use Rattle.build.specs.Promises.{BuildPromise};
ghost use Rattle.state.specs.View.{as_state};
ghost use Rattle.run.specs.Promises.{StartPromise, StepPromise, RunPromise, UndoPromise};
ghost use Rattle.asking.specs.Promises.{ReadinessPromise};
ghost use Rattle.explaining.specs.Promises.{WhyPromise};
ghost use Rattle.lights.specs.Promises.{LightsPromise};
ghost use Rattle.lent.specs.Promises.{AdvancePromise};

use build::Built;
use lights::Lights;
use readiness::Told;
use reason::Why;
use record::Pick;
use run::{Calls, Outcome, Ran, State};
use sequence::Checked;

// Checks a written sequence: 0 and place 0, or the first refusal and its place.
pub fn press_check(file: &[u8]) -> Checked
    ensures { CheckPromise file.now result }
{
    sequence::check(file)
}

// Builds the list of a written sequence into the lent buffer, whose bytes past the list stay. A refusal leaves the buffer as it was.
pub fn press_build(file: &[u8], list: &mut [u8]) -> Built
    ensures { BuildPromise file.now list.old result list.new }
{
    build::build(file, list)
}

// The start of a run, with its start records in the log. A refusal answers a state of zeros and leaves the log as it was. Of the kept states
// only the room is looked at.
pub fn press_start(list: &[u8], b: u8, resets: &[u8], log: &mut [u8], kept: &[u8]) -> Outcome
    ensures { StartPromise list.now b resets.now (record { log = log.old; kept = kept.now }) result (record { log = log.new; kept = kept.now }) }
{
    run::start(list, b, resets, log, kept)
}

// One step of a state handed over: the state after it, its record in the log, and at a multiple of 64 the state in its kept place. A refusal
// answers the state given and leaves both buffers as they were.
pub fn press_step(
    state: State,
    list: &[u8],
    log: &mut [u8],
    kept: &mut [u8],
    station: u8,
    reset: u8,
) -> Outcome
    ensures { StepPromise list.now (as_state state) (record { log = log.old; kept = kept.old }) (record { station = station; reset = reset }) result (record { log = log.new; kept = kept.new }) }
{
    state.step(list, log, kept, Pick { station, reset })
}

// One step of a state lent: the state after it in the same place, its record in the log, and at a multiple of 64 the state in its kept place. A
// refusal leaves all three as they were.
pub fn press_advance(
    state: &mut State,
    list: &[u8],
    log: &mut [u8],
    kept: &mut [u8],
    station: u8,
    reset: u8,
) -> u8
    ensures { AdvancePromise list.now (as_state state.old) (record { log = log.old; kept = kept.old }) (record { station = station; reset = reset }) result state.new (record { log = log.new; kept = kept.new }) }
{
    lent::advance(state, list, log, kept, station, reset)
}

// The steps of the picks, until one is refused, the picks end or the most-steps number is reached, with their records in the log and the states
// that they keep. A refused step writes nothing, and those before it stand.
pub fn press_run(
    state: State,
    list: &[u8],
    log: &mut [u8],
    kept: &mut [u8],
    picks: &[u8],
    most: usize,
) -> Ran
    ensures { RunPromise list.now (as_state state) (record { log = log.old; kept = kept.old }) picks.now most result (record { log = log.new; kept = kept.new }) }
{
    state.run(list, log, kept, picks, most)
}

// The state before the last step, by the log and the kept states, which stay. A refusal answers the state given.
pub fn press_undo(state: State, list: &[u8], log: &[u8], kept: &[u8]) -> Outcome
    ensures { UndoPromise list.now (as_state state) (record { log = log.now; kept = kept.now }) result }
{
    state.undo(list, log, kept)
}

// Whether a station is ready, has ended or is waiting, as the number that stands for it, and where it waits. Refused, the number and place 0.
pub fn press_readiness(state: State, list: &[u8], station: u8) -> Told
    ensures { ReadinessPromise list.now (as_state state) station result }
{
    asking::readiness(state, list, station)
}

// Why a station was not picked: one reason, as the number that stands for it and what goes with it. Refused, all zeros but the number.
pub fn press_why(state: State, list: &[u8], station: u8) -> Why
    ensures { WhyPromise list.now (as_state state) station result }
{
    explaining::why(state, list, station)
}

// Which stations are ready, in turn, waiting and ended, and which read and write each variable in their next steps. Refused, all zeros but
// the number.
pub fn press_lights(state: State, list: &[u8]) -> Lights
    ensures { LightsPromise list.now (as_state state) result }
{
    lights::lights(state, list)
}
