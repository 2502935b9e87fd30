// Checks a written sequence: five tests in their order, each over the whole file.
// The crate `shape` reads the parts of the file, `nesting` counts what is open.
#![tactic(auto)]

ghost use Rattle.std.specs.Prelude.{◌≡◌, Some, None, ◌≤◌, ltb, if◌then◌else◌};
ghost use Rattle.rules.specs.Names.{max_records};
ghost use Rattle.rules.specs.Records.{record_count};
ghost use Rattle.rules.specs.Check.{wrong_length, field_place, station_count, check};
ghost use Rattle.record.specs.Refusals.{number_of};
ghost use Rattle.sequence.specs.Answer.{answer, as_answer, as_fault, told_answer, wrong_count};
ghost use Rattle.sequence.specs.Promises.{CheckPromise};

use record::{Record, Refusal};

// What is wrong with a file: the refusal, and the place of a record.
#[derive(Clone, Copy, Debug, PartialEq, Eq)]
pub struct Fault {
    pub refusal: Refusal,
    pub place: u16,
}

// What checking answers: 0 or the number of the refusal, and the place of a record.
#[repr(C)]
#[derive(Clone, Copy, Debug, PartialEq, Eq)]
pub struct Checked {
    pub number: u8,
    pub place: u16,
}

impl Fault {
    // At the place of one of a file's records, or past the last.
    fn at(refusal: Refusal, place: usize) -> Fault
        requires { place ≤ max_records }
        ensures { as_fault result ≡ answer (number_of refusal) place }
    {
        Fault {
            refusal,
            place: place as u16,
        }
    }
}

impl From<Result<(), Fault>> for Checked {
    ghost from_gives = { λ outcome checked. as_answer checked ≡ told_answer outcome };

    fn from(outcome: Result<(), Fault>) -> Checked {
        match outcome {
            Ok(()) => Checked {
                number: 0,
                place: 0,
            },
            Err(fault) => Checked {
                number: fault.refusal.number(),
                place: fault.place,
            },
        }
    }
}

// Checks a file. The first test that refuses gives the number and the place; an accepted sequence answers 0 and place 0.
pub fn check(file: &[u8]) -> Checked
    ensures { CheckPromise file.now result }
{
    Checked::from(accept(file))
}

// Whether a file is an accepted sequence; where it is not, what the first test that refuses finds.
pub fn accept(file: &[u8]) -> Result<(), Fault>
    ensures { told_answer result ≡ check file.now }
{
    if wrong_length(file) {
        return Err(Fault::at(Refusal::Length, 0));
    }
    if let Some(place) = field_place(file) {
        return Err(Fault::at(Refusal::Field, place));
    }
    if wrong_count(file) {
        return Err(Fault::at(Refusal::Count, 0));
    }
    if let Err(place) = shape::of(file) {
        return Err(Fault::at(Refusal::Shape, place));
    }
    if let Some(place) = nesting::depth_place(file) {
        return Err(Fault::at(Refusal::Depth, place));
    }
    Ok(())
}

// LENGTH: whether the bytes are not a multiple of 8, none, or more than the most records have.
#[tactic(auto, unfolding(rules::specs::Check::wrong_length))]
fn wrong_length(file: &[u8]) -> bool
    ensures { result ≡ wrong_length file.now }
{
    let bytes = file.len();
    bytes % 8 != 0 || bytes == 0 || bytes > 8 * Record::MAX_RECORDS
}

// FIELD: the place of the first record outside the document's table, where there is one.
fn field_place(file: &[u8]) -> Option<usize>
    ensures { result ≡ (if ltb (field_place file.now) (record_count file.now) then Some (field_place file.now) else None) }
{
    let (records, _) = file.as_chunks();
    records
        .iter()
        .position(|bytes| !table::fields_right(Record::from(*bytes)))
}

// COUNT: whether the STATION records are none, or more than the most stations.
fn wrong_count(file: &[u8]) -> bool
    ensures { result ≡ wrong_count file.now }
{
    !(1..=Record::MAX_STATIONS).contains(&station_count(file))
}

// How many STATION records the file has, wherever they stand.
pub fn station_count(file: &[u8]) -> usize
    ensures { result ≡ station_count file.now }
{
    let (records, _) = file.as_chunks::<8>();
    records
        .iter()
        .filter(|bytes| bytes[0] == Record::STATION)
        .count()
}
