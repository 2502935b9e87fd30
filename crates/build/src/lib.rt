// Building a list from a written sequence: check's refusals first, then ROOM. A refusal leaves the lent buffer as it was.
#![tactic(auto)]

ghost use Rattle.std.specs.Prelude.{◌≡◌, ℕ, List};
ghost use Rattle.rules.specs.Build.{build};
ghost use Rattle.build.specs.Promises.{BuildPromise};
ghost use Rattle.build.specs.View.{as_built, told_built};

use record::Refusal;
use sequence::Fault;

// What building answers: 0 or the number of the refusal, the place of a record, and the count of list records, 0 where it refuses.
#[repr(C)]
#[derive(Clone, Copy, Debug, PartialEq, Eq)]
pub struct Built {
    pub number: u8,
    pub place: u16,
    pub count: u16,
}

impl From<Result<u16, Fault>> for Built {
    ghost from_gives = { λ outcome built. (buffer : List ℕ) → as_built built buffer ≡ told_built outcome buffer };

    fn from(outcome: Result<u16, Fault>) -> Built {
        match outcome {
            Ok(count) => Built {
                number: 0,
                place: 0,
                count,
            },
            Err(fault) => Built {
                number: fault.refusal.number(),
                place: fault.place,
                count: 0,
            },
        }
    }
}

// Builds the list of a file into the lent buffer, whose bytes past the list stay.
pub fn build(file: &[u8], list: &mut [u8]) -> Built
    ensures { BuildPromise file.now list.old result list.new }
{
    Built::from(laid(file, list))
}

// How many records the list has that is laid into the lent buffer, or what refuses the file or the buffer.
#[tactic(auto, using(crate::proofs::Answer::build_refused, crate::proofs::Answer::counted_few, crate::proofs::Answer::stations_few))]
fn laid(file: &[u8], list: &mut [u8]) -> Result<u16, Fault>
    ensures { told_built result list.new ≡ build file.now list.old }
{
    sequence::accept(file)?;
    let stations = sequence::station_count(file);
    let count = 2 * stations + laying::step_count(file);
    if list.len() < 16 * count {
        return Err(Fault {
            refusal: Refusal::Room,
            place: 0,
        });
    }
    laying::lay_out(file, count as u16, stations as u8, list);
    Ok(count as u16)
}
