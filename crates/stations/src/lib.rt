// Which stations are ready, and whether one of them is lower: by the record of a station's next step, the variables, the positions and the
// priorities.
#![tactic(auto)]

ghost use Rattle.std.specs.Prelude.{◌≡◌, false, replicate, min};
ghost use Rattle.rules.specs.Words.{each, changed};
ghost use Rattle.rules.specs.Names.{max_stations};
ghost use Rattle.rules.specs.State.{position_in, priority_in};
ghost use Rattle.rules.specs.Turn.{yields_to};
ghost use Rattle.rules.specs.Ready.{told, says_ready};
ghost use Rattle.record.specs.Refusals.{told_number};
ghost use Rattle.stations.specs.Places.{readiness_by, readiness_from, ready_from};

use readiness::Readiness;
use record::{ListRecord, Record, Refusal};
use state::State;

// What refuses the pick of a station that stands at this place of the list, which is read narrowed, by its readiness.
pub fn told_from(list: &[u8], vars: &[u32; 32], place: u16) -> Result<(), Refusal>
    ensures { told_number result ≡ (told (readiness_from list.now vars.now place)).number }
{
    let e = narrow::narrowed(list, place as usize);
    Readiness::at(vars, e, place).refusal()
}

// Whether a station that stands at this place of the list, which is read narrowed, is ready.
fn ready_from(list: &[u8], vars: &[u32; 32], place: u16) -> bool
    ensures { result ≡ ready_from list.now vars.now place }
{
    let e = narrow::narrowed(list, place as usize);
    Readiness::at(vars, e, place).is_ready()
}

// Fills in which of the state's n stations, at most eight, are ready, and answers whether none of them is ready with a priority below own.
// The list is read as a run reads it, narrowed.
pub fn judge(list: &[u8], state: &State, own: i16, all: &mut [bool; 8]) -> bool
    ensures { (all.new ≡ changed (λ j was. ready_from list.now state.now.vars (position_in state.now.positions j)) (min state.now.n max_stations) all.old) × (result ≡ each (λ j. yields_to (ready_from list.now state.now.vars (position_in state.now.positions j)) own (priority_in state.now.priorities j)) (min state.now.n max_stations)) }
{
    let mut lowest = true;
    let given = state.n as usize;
    for j in 0..given.min(Record::MAX_STATIONS) {
        let ready = ready_from(list, &state.vars, state.positions[j]);
        all[j] = ready;
        if ready && state.priorities[j] < own {
            lowest = false;
        }
    }
    lowest
}

// Which of the first n stations, at most eight, are ready, with these variables and positions; a station from n on is not. It takes no state:
// n may be any number here.
pub fn ready(list: &[u8], vars: &[u32; 32], positions: &[u16; 8], n: usize) -> [bool; 8]
    ensures { result ≡ changed (λ j was. says_ready (readiness_by list.now vars.now (position_in positions.now j))) (min n max_stations) (replicate max_stations false) }
{
    let mut all = [false; 8];
    for j in 0..n.min(Record::MAX_STATIONS) {
        let place = positions[j];
        let e = ListRecord::at(list, place as usize);
        all[j] = Readiness::at(vars, e, place).is_ready();
    }
    all
}
