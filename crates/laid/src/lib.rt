// The record of a list that is laid for a record of the file, by what is known of the layout there.
#![tactic(auto)]

ghost use Rattle.std.specs.Prelude.{◌≡◌};
ghost use Rattle.record.specs.View.{as_record, as_list_record};
ghost use Rattle.layout.specs.View.{as_laying};
ghost use Rattle.layout.specs.Layout.{lays as lays_of, record_for};

use entries::{is_step, listed, stop};
use layout::Laying;
use record::{ListRecord, Record};

// Whether a record of the list is laid for a record of this kind.
#[tactic(auto, unfolding(layout::specs::Layout::lays))]
pub fn lays(laying: Laying, kind: u8) -> bool
    ensures { result ≡ lays_of kind (as_laying laying) }
{
    is_step(kind) || (kind == Record::STATION && laying.station != 0)
}

// The record of the list laid for a record of the file.
#[tactic(auto, unfolding(layout::specs::Layout::record_for))]
pub fn record_for(laying: Laying, r: Record) -> ListRecord
    ensures { as_list_record result ≡ record_for (as_record r) (as_laying laying) }
{
    let station = laying.station;
    match r.kind {
        Record::STATION => stop(station),
        _ if station == Record::NO_STATION => listed(r, Record::NO_STATION, 0, 0, 0),
        Record::IF => listed(r, station, laying.inside, laying.next, laying.other()),
        Record::WHILE => listed(r, station, laying.inside, laying.next, laying.coming()),
        Record::AWAIT => listed(r, station, 0, laying.place, laying.coming()),
        _ => listed(r, station, laying.inside, laying.next, 0),
    }
}
