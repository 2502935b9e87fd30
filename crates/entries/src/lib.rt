// The records of a list, each from the numbers that it holds, and whether a kind is a step.
#![tactic(auto)]

ghost use Rattle.std.specs.Prelude.{◌≡◌, ◌-◌, get_or, [], ◌∷◌};
ghost use Rattle.rules.specs.Words.{among};
ghost use Rattle.rules.specs.Names.{SKIP, SET, IF, WHILE, AWAIT, INIT, STOP};
ghost use Rattle.rules.specs.Build.{bare, listed as listed_of};
ghost use Rattle.record.specs.View.{as_record, as_list_record};
ghost use Rattle.entries.specs.Entries.{end_of_file};

use record::{ListRecord, Record, entry};

// A list record, with nothing in its spare bytes.
pub fn listed(own: Record, station: u8, inside: u8, t1: u16, t2: u16) -> ListRecord
    ensures { as_list_record result ≡ listed_of (as_record own) station inside t1 t2 }
{
    ListRecord {
        own,
        station,
        inside,
        t1,
        t2,
        spare: 0,
    }
}

// The STOP of the station before.
pub fn stop(station: u8) -> ListRecord
    ensures { as_list_record result ≡ listed_of (bare STOP 0) (station - 1) 0 0 0 }
{
    let own = Record {
        kind: Record::STOP,
        ..Record::default()
    };
    listed(own, station.saturating_sub(1), 0, 0, 0)
}

// Whether a kind is SKIP, SET, IF, WHILE or AWAIT.
pub fn is_step(kind: u8) -> bool
    ensures { result ≡ among kind (SKIP ∷ SET ∷ IF ∷ WHILE ∷ AWAIT ∷ []) }
{
    matches!(
        kind,
        Record::SKIP | Record::SET | Record::IF | Record::WHILE | Record::AWAIT
    )
}

// A STATION record, which the end of a file is laid out as.
pub fn end_of_file() -> Record
    ensures { as_record result ≡ end_of_file }
{
    Record {
        kind: Record::STATION,
        ..Record::default()
    }
}

// The INIT record of a station, which starts where the array says; from the ninth station on at 0.
pub fn init(j: u8, starts: [u16; 8]) -> ListRecord
    ensures { as_list_record result ≡ listed_of (bare INIT j) j 0 (get_or starts j 0) 0 }
{
    let own = Record {
        kind: Record::INIT,
        a: j,
        ..Record::default()
    };
    listed(own, j, 0, entry(&starts, j as usize, 0), 0)
}
