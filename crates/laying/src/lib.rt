// Laying out the list of a written sequence that was checked: two passes over the file, the first for its loops, and one over the
// stations. Each function is defined on any file; that the list is the rules' where the file was accepted is proved in the crate `build`.
#![tactic(auto)]

ghost use Rattle.std.specs.Prelude.{◌≡◌};
ghost use Rattle.rules.specs.Records.{records};
ghost use Rattle.layout.specs.View.{as_laying};
ghost use Rattle.laying.specs.Laid.{lay_record, lay_records, lay_inits, laid_out, step_count};
ghost use Rattle.record.specs.View.{as_record};

use layout::Laying;
use record::Record;

mod put;

// One record of the file: what is laid for it is put before what was laid last.
#[tactic(auto, unfolding(crate::specs::Laid::lay_record))]
fn lay_record(r: Record, laying: Laying, loops: &[u16], list: &mut [u8]) -> Laying
    ensures state { as_laying result ≡ (lay_record loops.now (as_record r) (record { state = as_laying laying; buffer = list.old })).state }
    ensures buffer { list.new ≡ (lay_record loops.now (as_record r) (record { state = as_laying laying; buffer = list.old })).buffer }
{
    if laid::lays(laying, r.kind) {
        put::put(
            list,
            laying.place.saturating_sub(1),
            laid::record_for(laying, r),
        );
    }
    laying.take(r.kind, loops)
}

// All the records of a file, from the last to the first.
fn lay_records(file: &[u8], laying: Laying, loops: &[u16], list: &mut [u8]) -> Laying
    ensures state { as_laying result ≡ (lay_records loops.now (records file.now) (record { state = as_laying laying; buffer = list.old })).state }
    ensures buffer { list.new ≡ (lay_records loops.now (records file.now) (record { state = as_laying laying; buffer = list.old })).buffer }
{
    let mut x = laying;
    for i in (0..file.len() / 8).rev() {
        x = lay_record(Record::at(file, i), x, loops, list);
    }
    x
}

// The INIT records of so many stations, from the last to the first, put before what was laid last.
fn lay_inits(stations: u8, starts: [u16; 8], place: u16, list: &mut [u8])
    ensures { list.new ≡ lay_inits stations starts place list.old }
{
    let mut p = place;
    for j in (0..stations).rev() {
        p = p.saturating_sub(1);
        put::put(list, p, entries::init(j, starts));
    }
}

// A whole list of so many records and stations.
#[tactic(auto, unfolding(crate::specs::Laid::laid_out))]
pub fn lay_out(file: &[u8], total: u16, stations: u8, list: &mut [u8])
    ensures { list.new ≡ laid_out file.now total stations list.old }
{
    let found = loops::find(file, (stations as u16).saturating_sub(1));
    let begin = Laying::begin(total, stations, found.found);
    let last = lay_record(entries::end_of_file(), begin, &found.places, list);
    let x = lay_records(file, last, &found.places, list);
    lay_inits(stations, x.starts, x.place, list)
}

// How many SKIP, SET, IF, WHILE and AWAIT records a file has.
#[tactic(auto, unfolding(crate::specs::Laid::step_count))]
pub fn step_count(file: &[u8]) -> usize
    ensures { result ≡ step_count file.now }
{
    file.chunks_exact(8)
        .filter(|record| entries::is_step(record[0]))
        .count()
}
