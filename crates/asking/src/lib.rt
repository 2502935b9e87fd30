// What a panel asks of one station: whether it is ready, has ended or is waiting, and where, of any list and any state whatever.
#![tactic(auto)]

ghost use Rattle.std.specs.Prelude.{◌≡◌, IfOk};
ghost use Rattle.rules.specs.Words.{refusal};
ghost use Rattle.rules.specs.Ready.{readiness};
ghost use Rattle.record.specs.Refusals.{told_number};
ghost use Rattle.state.specs.View.{as_state};
ghost use Rattle.readiness.specs.View.{as_readiness};
ghost use Rattle.asking.specs.Asked.{asked_tests};
ghost use Rattle.asking.specs.Promises.{ReadinessPromise};

use readiness::{Readiness, Told};
use record::{ListRecord, Refusal};
use state::State;

// What a station's readiness tells. Refused, place 0 and the number: LIST where the list is not sound, STATE where the state is not, COMPONENT
// where there is no such station.
#[tactic(auto, using(crate::proofs::Answers::told_refused, crate::proofs::Answers::told_taken))]
pub fn readiness(state: State, list: &[u8], station: u8) -> Told
    ensures { ReadinessPromise list.now (as_state state) station result }
{
    match asked(&state, list, station) {
        Ok(readiness) => Told::from(readiness),
        Err(refusal) => Told {
            number: refusal.number(),
            place: 0,
        },
    }
}

// That readiness itself, or what refuses the question.
pub fn asked(state: &State, list: &[u8], station: u8) -> Result<Readiness, Refusal>
    ensures refused { told_number result ≡ refusal (asked_tests list.now (as_state state.now) station) }
    ensures here { IfOk result (λ r. as_readiness r ≡ readiness list.now (as_state state.now) station) }
{
    whole::judged(list, state)?;
    if state.n <= station {
        return Err(Refusal::Component);
    }
    let place = state.positions[station as usize];
    let e = ListRecord::at(list, place as usize);
    Ok(Readiness::at(&state.vars, e, place))
}
