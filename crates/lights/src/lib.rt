// The lights: which stations are ready, in turn, waiting and ended, and which read and write each variable next, of any list and any state
// whatever. `answer` has what they answer; `masks` gathers it.
#![tactic(auto)]

ghost use Rattle.state.specs.View.{as_state};
ghost use Rattle.lights.specs.Promises.{LightsPromise};

use masks::Masks;
use state::State;

mod answer;

pub use answer::Lights;

// The lights of a state. Refused, all zeros but the number: LIST where the list is not sound, STATE where the state is not.
#[tactic(auto, using(crate::proofs::Answers::refused, crate::proofs::Answers::gathered_all, laws::proofs::Passed::lights_passed))]
pub fn lights(state: State, list: &[u8]) -> Lights
    ensures { LightsPromise list.now (as_state state) result }
{
    match whole::judged(list, &state) {
        Ok(()) => Lights::from(Masks::of(list, &state)),
        Err(refusal) => Lights::from(refusal),
    }
}
