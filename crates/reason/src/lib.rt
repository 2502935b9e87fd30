// Why a station was not picked: one reason, and the number and the values that it stands for.
#![tactic(auto)]

ghost use Rattle.std.specs.Prelude.{◌≡◌, get_or};
ghost use Rattle.rules.specs.Why.{bare, said, seen};
ghost use Rattle.reason.specs.View.{as_seen, as_reason, as_why};

use record::Refusal;

// A variable that a condition names, and its value.
#[derive(Clone, Copy, Debug, PartialEq, Eq)]
pub struct Seen {
    pub variable: u8,
    pub value: u32,
}

// The reason: the station has ended; it waits at the AWAIT with this record number, for a variable or for two; it is behind this station; or
// there is none, and it may be picked.
#[derive(Clone, Copy, Debug, PartialEq, Eq)]
pub enum Reason {
    Ended,
    Waiting(u16, Seen),
    WaitingTwo(u16, Seen, Seen),
    Behind(u8),
    MayBePicked,
}

// What that stands for: 0 where the station may be picked, else the refusal of its pick; the station that is ahead of it; the record where it
// waits; and how many variables its condition names, which they are, and their values. What does not go with the number is 0.
#[repr(C)]
#[derive(Clone, Copy, Debug, PartialEq, Eq)]
pub struct Why {
    pub number: u8,
    pub ahead: u8,
    pub place: u16,
    pub count: u8,
    pub variables: [u8; 2],
    pub values: [u32; 2],
}

impl Seen {
    // A variable and what it holds; past the last one 0.
    pub fn of(vars: &[u32; 32], variable: u8) -> Seen
        ensures { as_seen result ≡ seen vars.now variable }
    {
        Seen {
            variable,
            value: record::entry(vars, variable as usize, 0),
        }
    }
}

impl From<Reason> for Why {
    ghost from_gives = { λ reason r. as_why r ≡ said (as_reason reason) };

    // The number and the values that a reason stands for.
    fn from(reason: Reason) -> Why {
        match reason {
            Reason::Ended => Why::bare(Refusal::Ended.number()),
            Reason::Waiting(place, first) => Why {
                place,
                count: 1,
                variables: [first.variable, 0],
                values: [first.value, 0],
                ..Why::bare(Refusal::NotReady.number())
            },
            Reason::WaitingTwo(place, first, second) => Why {
                place,
                count: 2,
                variables: [first.variable, second.variable],
                values: [first.value, second.value],
                ..Why::bare(Refusal::NotReady.number())
            },
            Reason::Behind(ahead) => Why {
                ahead,
                ..Why::bare(Refusal::Turn.number())
            },
            Reason::MayBePicked => Why::bare(0),
        }
    }
}

impl Why {
    // A number alone.
    pub fn bare(number: u8) -> Why
        ensures { as_why result ≡ bare number }
    {
        Why {
            number,
            ahead: 0,
            place: 0,
            count: 0,
            variables: [0; 2],
            values: [0; 2],
        }
    }

    // Variable i of the two, and its value; zeros past the second.
    pub fn seen(self, i: usize) -> Seen
        ensures { result ≡ record { variable = get_or self.variables i 0; value = get_or self.values i 0 } }
    {
        Seen {
            variable: record::entry(&self.variables, i, 0),
            value: record::entry(&self.values, i, 0),
        }
    }
}
