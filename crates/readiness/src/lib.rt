// Whether a station is ready, has ended or is waiting, by the record where it stands: the one test of a STOP and of an AWAIT's condition.
#![tactic(auto)]

ghost use Rattle.std.specs.Prelude.{◌≡◌};
ghost use Rattle.rules.specs.Ready.{told, readiness_at, says_ready, says_ended, says_waiting};
ghost use Rattle.record.specs.Refusals.{told_number};
ghost use Rattle.record.specs.View.{as_list_record};
ghost use Rattle.readiness.specs.View.{as_readiness, as_told};

use record::{ListRecord, Record, Refusal};

// What a station is: ready; ended, at a STOP; or waiting, at the AWAIT with this record number.
#[derive(Clone, Copy, Debug, PartialEq, Eq)]
pub enum Readiness {
    Ready,
    Ended,
    Waiting(u16),
}

// What that stands for, as C reads it: 0 where the station is ready, else the refusal of its pick; and the record where it waits, 0 where
// it does not.
#[repr(C)]
#[derive(Clone, Copy, Debug, PartialEq, Eq)]
pub struct Told {
    pub number: u8,
    pub place: u16,
}

impl Readiness {
    // The readiness of a station whose next step is e, at this place.
    pub fn at(vars: &[u32; 32], e: ListRecord, place: u16) -> Readiness
        ensures { as_readiness result ≡ readiness_at vars.now (as_list_record e) place }
    {
        let kind = e.own.kind;
        if kind == Record::STOP {
            return Readiness::Ended;
        }
        if kind == Record::AWAIT && !values::holds(vars, e.own.op, e.own.b as usize, e.own.k) {
            return Readiness::Waiting(place);
        }
        Readiness::Ready
    }

    // Whether the station is ready, whether it has ended, and whether it waits.
    pub fn is_ready(self) -> bool
        ensures { result ≡ says_ready (as_readiness self) }
    {
        matches!(self, Readiness::Ready)
    }

    pub fn has_ended(self) -> bool
        ensures { result ≡ says_ended (as_readiness self) }
    {
        matches!(self, Readiness::Ended)
    }

    pub fn is_waiting(self) -> bool
        ensures { result ≡ says_waiting (as_readiness self) }
    {
        matches!(self, Readiness::Waiting(_))
    }

    // What refuses the station's pick by this alone: nothing where it is ready.
    pub fn refusal(self) -> Result<(), Refusal>
        ensures { told_number result ≡ (told (as_readiness self)).number }
    {
        match self {
            Readiness::Ready => Ok(()),
            Readiness::Ended => Err(Refusal::Ended),
            Readiness::Waiting(_) => Err(Refusal::NotReady),
        }
    }
}

// The number and the place that a readiness stands for.
impl From<Readiness> for Told {
    ghost from_gives = { λ r t. as_told t ≡ told (as_readiness r) };

    fn from(r: Readiness) -> Told {
        let place = match r {
            Readiness::Waiting(place) => place,
            Readiness::Ready | Readiness::Ended => 0,
        };
        Told {
            number: Refusal::told(r.refusal()),
            place,
        }
    }
}
