// What the lights answer, of a refusal and of the masks.
ghost use Rattle.std.specs.Prelude.{◌≡◌};
ghost use Rattle.record.specs.Refusals.{number_of};
ghost use Rattle.lights.specs.View.{as_lights, refused_by, lit_by};

use masks::Masks;
use record::Refusal;

// 0 or a refusal's number; four station masks, bit i for station i: ready, in turn, waiting and ended; and two rows of 32 station masks,
// which stations' next steps read, and which write, each variable.
#[repr(C)]
#[derive(Clone, Copy, Debug, PartialEq, Eq)]
pub struct Lights {
    pub number: u8,
    pub ready: u8,
    pub in_turn: u8,
    pub waiting: u8,
    pub ended: u8,
    pub rows: [[u8; 32]; 2],
}

// All zeros but the number.
impl From<Refusal> for Lights {
    ghost from_gives = { λ refusal lit. as_lights lit ≡ refused_by (number_of refusal) };

    fn from(refusal: Refusal) -> Lights {
        Lights {
            number: refusal.number(),
            ready: 0,
            in_turn: 0,
            waiting: 0,
            ended: 0,
            rows: [[0; 32]; 2],
        }
    }
}

// All masks.
impl From<Masks> for Lights {
    ghost from_gives = { λ masks lit. as_lights lit ≡ lit_by masks };

    fn from(masks: Masks) -> Lights {
        let Masks {
            ready,
            in_turn,
            waiting,
            ended,
            reads,
            writes,
        } = masks;
        Lights {
            number: 0,
            ready,
            in_turn,
            waiting,
            ended,
            rows: [reads, writes],
        }
    }
}

impl Lights {
    // The two rows of an answer.
    pub fn rows(self) -> [[u8; 32]; 2]
        ensures { result ≡ self.rows }
    {
        self.rows
    }
}
