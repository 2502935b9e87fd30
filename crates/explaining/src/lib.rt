// What a panel asks of a station that was not picked: why not, of any list and any state whatever.
#![tactic(auto)]

ghost use Rattle.std.specs.Prelude.{◌≡◌, ◌≤◌, ◌<◌};
ghost use Rattle.rules.specs.Names.{max_stations};
ghost use Rattle.rules.specs.Records.{list_record_at};
ghost use Rattle.rules.specs.Ready.{is_ready};
ghost use Rattle.rules.specs.Why.{reason_by, waits_for};
ghost use Rattle.state.specs.View.{as_state};
ghost use Rattle.reason.specs.View.{as_reason};
ghost use Rattle.explaining.specs.Promises.{WhyPromise};

use readiness::Readiness;
use reason::{Reason, Seen, Why};
use record::ListRecord;
use state::State;

// Why a station was not picked, by its readiness. Refused, all zeros but the number: LIST where the list is not sound, STATE where the state is
// not, COMPONENT where there is no such station.
pub fn why(state: State, list: &[u8], station: u8) -> Why
    ensures { WhyPromise list.now (as_state state) station result }
{
    match asking::asked(&state, list, station) {
        Ok(Readiness::Ended) => Why::from(Reason::Ended),
        Ok(Readiness::Waiting(place)) => Why::from(of_waiting(list, &state.vars, place)),
        Ok(Readiness::Ready) => Why::from(of_ready(list, &state, station)),
        Err(refusal) => Why::bare(refusal.number()),
    }
}

// The reason of a station that waits at this place, by the variables that the condition there names. A condition against a variable has a k that
// fits a byte, as those of a sound list have.
fn of_waiting(list: &[u8], vars: &[u32; 32], place: u16) -> Reason
    requires { 4 ≤ (list_record_at list.now place).own.op → (list_record_at list.now place).own.k < 256 }
    ensures { as_reason result ≡ waits_for vars.now (list_record_at list.now place).own place }
{
    let own = ListRecord::at(list, place as usize).own;
    let first = Seen::of(vars, own.b);
    if own.op < 4 {
        return Reason::Waiting(place, first);
    }
    Reason::WaitingTwo(place, first, Seen::of(vars, own.k as u8))
}

// The reason of a station that is ready: it may be picked, or it is behind the first in turn, which there is since it is ready itself.
fn of_ready(list: &[u8], state: &State, station: u8) -> Reason
    requires { state.now.n ≤ max_stations }
    ensures { as_reason result ≡ reason_by list.now (as_state state.now) station is_ready }
{
    let n = state.n as usize;
    let all = stations::ready(list, &state.vars, &state.positions, n);
    if turns::lowest_of(&all, &state.priorities, n, station as usize) {
        return Reason::MayBePicked;
    }
    let ahead = turns::first_in_turn(&all, &state.priorities, n).unwrap_or(n);
    Reason::Behind(ahead as u8)
}
