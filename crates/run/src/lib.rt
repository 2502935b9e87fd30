// A run: the calls that start it, step it, run it and take a step back, over any list, state and log whatever.
#![tactic(auto)]

ghost use Rattle.std.specs.Prelude.{◌≡◌, Result};
ghost use Rattle.rules.specs.State as rules;
ghost use Rattle.record.specs.Refusals.{told_number};
ghost use Rattle.record.specs.View.{as_pick};
ghost use Rattle.state.specs.View.{as_state};
ghost use Rattle.run.specs.View.{as_answer};
ghost use Rattle.run.specs.Promises.{StepPromise, RunPromise, UndoPromise};

use record::{Pick, Refusal};

mod begin;
mod single;
mod undo;

pub use begin::start;
pub use state::State;

// What a start, a step and an undo answer: 0 and the state reached, or a refusal's number and the state given, which is zeros for a start.
#[repr(C)]
#[derive(Clone, Copy, Debug, PartialEq, Eq)]
pub struct Outcome {
    pub number: u8,
    pub state: State,
}

// What a run answers: 0 or the refusal that ended it, the state reached, and the steps taken.
#[repr(C)]
#[derive(Clone, Copy, Debug, PartialEq, Eq)]
pub struct Ran {
    pub number: u8,
    pub state: State,
    pub steps: usize,
}

// The calls on a state, which is given by value and handed back in the answer.
pub trait Calls: Copy {
    ghost given: { Self → rules.State };

    // One step, by the pick of a station and its reset. A step taken writes its record to the log and, where it reaches a multiple of 64, the
    // state after it to its kept place; a refusal writes nothing.
    fn step(self, list: &[u8], log: &mut [u8], kept: &mut [u8], pick: Pick) -> Outcome
        ensures { StepPromise list.now (given self) (record { log = log.old; kept = kept.old }) (as_pick pick) result (record { log = log.new; kept = kept.new }) };

    // The steps of the picks, two bytes each, until one is refused, the picks end or the most-steps number is reached. The list and the
    // state are tested once.
    fn run(self, list: &[u8], log: &mut [u8], kept: &mut [u8], picks: &[u8], most: usize) -> Ran
        ensures { RunPromise list.now (given self) (record { log = log.old; kept = kept.old }) picks.now most result (record { log = log.new; kept = kept.new }) };

    // The state before the last step, made anew from the log and the kept states. Both stay.
    fn undo(self, list: &[u8], log: &[u8], kept: &[u8]) -> Outcome
        ensures { UndoPromise list.now (given self) (record { log = log.now; kept = kept.now }) result };
}

impl Calls for State {
    ghost given = { as_state };

    fn step(mut self, list: &[u8], log: &mut [u8], kept: &mut [u8], pick: Pick) -> Outcome {
        let taken = single::step(list, &mut self, log, kept, pick);
        Outcome {
            number: Refusal::told(taken),
            state: self,
        }
    }

    fn run(
        mut self,
        list: &[u8],
        log: &mut [u8],
        kept: &mut [u8],
        picks: &[u8],
        most: usize,
    ) -> Ran {
        let (ended, steps) = single::steps(list, &mut self, log, kept, picks, most);
        Ran {
            number: Refusal::told(ended),
            state: self,
            steps,
        }
    }

    fn undo(self, list: &[u8], log: &[u8], kept: &[u8]) -> Outcome {
        let mut outcome = Outcome {
            number: 0,
            state: self,
        };
        outcome.number = Refusal::told(undo::undo(list, &mut outcome.state, log, kept));
        outcome
    }
}

// A state reached, or a refusal and the state given.
fn answered(reached: Result<State, Refusal>, given: State) -> Outcome
    ensures { (result.number ≡ told_number reached) × (as_state result.state ≡ as_answer reached (as_state given)) }
{
    match reached {
        Ok(state) => Outcome { number: 0, state },
        Err(refusal) => Outcome {
            number: refusal.number(),
            state: given,
        },
    }
}
