// The positions and priorities that a run begins with, over any list, log and number of stations whatever. There is room for eight
// stations; those past them are left out.
#![tactic(auto)]

ghost use Rattle.std.specs.Prelude.{◌≡◌, ◌++◌, ◌-◌, min, pos, replicate};
ghost use Rattle.rules.specs.Words.{values};
ghost use Rattle.rules.specs.Names.{max_stations};
ghost use Rattle.rules.specs.Records.{list_record_at, pick_at};

use record::{ListRecord, Pick, Record};

// Each station's first step, by its INIT; 0 from station n on.
pub fn first_steps(list: &[u8], n: usize) -> [u16; 8]
    ensures { result ≡ values (λ j. (list_record_at list.now j).t1) (min n max_stations) ++ replicate (max_stations - min n max_stations) 0 }
{
    let mut positions = [0; 8];
    for j in 0..n.min(Record::MAX_STATIONS) {
        positions[j] = ListRecord::at(list, j).t1;
    }
    positions
}

// Each station's reset in the start records of a log; 0 from station n on.
pub fn first_priorities(log: &[u8], n: usize) -> [i16; 8]
    ensures { result ≡ values (λ j. pos (pick_at log.now j).reset) (min n max_stations) ++ replicate (max_stations - min n max_stations) (pos 0) }
{
    let mut priorities = [0; 8];
    for j in 0..n.min(Record::MAX_STATIONS) {
        priorities[j] = Pick::at(log, j).reset as i16;
    }
    priorities
}
