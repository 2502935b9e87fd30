// The station masks, gathered from the last station down to station 0: each takes bit 0, and those after it move up. They are of any list
// and of any state, of eight stations at most.
#![tactic(auto)]

ghost use Rattle.std.specs.Prelude.{◌≡◌, ℕ, ◌<◌, false, get_or};
ghost use Rattle.rules.specs.Words.{values};
ghost use Rattle.rules.specs.Names.{variables};
ghost use Rattle.readiness.specs.View.{as_readiness};
ghost use Rattle.masks.specs.Masks.{with_bit, with_station, state_of, masks_from, Room};

use readiness::Readiness;
use record::{ListRecord, Record};
use state::State;
use touches::Touched;

// Of the stations from one on, which is bit 0: those that are ready, in turn, waiting and ended; and for each variable those whose next
// step reads it, and those whose next step writes it. One that waits only reads, in its condition.
#[derive(Clone, Copy, Debug, PartialEq, Eq)]
pub struct Masks {
    pub ready: u8,
    pub in_turn: u8,
    pub waiting: u8,
    pub ended: u8,
    pub reads: [u8; 32],
    pub writes: [u8; 32],
}

impl Masks {
    // The masks of a state's stations, at most eight, in a list. Which of them are ready is worked out before the loop, since whether one is
    // the lowest asks all of them; which case each is, in it. The lowest is sought among as many stations as the state says: past the eighth
    // none is ready.
    pub fn of(list: &[u8], state: &State) -> Masks
        ensures { result ≡ masks_from list.now (state_of state.now.vars state.now.positions state.now.priorities state.now.n) 0 }
    {
        let n = state.n as usize;
        let all = stations::ready(list, &state.vars, &state.positions, n);
        let mut masks = Masks {
            ready: 0,
            in_turn: 0,
            waiting: 0,
            ended: 0,
            reads: [0; 32],
            writes: [0; 32],
        };
        for j in (0..n.min(Record::MAX_STATIONS)).rev() {
            let place = state.positions[j];
            let e = ListRecord::at(list, place as usize);
            let case = Readiness::at(&state.vars, e, place);
            let ready = all[j];
            let in_turn = ready && turns::lowest_of(&all, &state.priorities, n, j);
            masks = masks.with_station(case, in_turn, Touched::of(list, e, ready));
        }
        masks
    }

    // The masks with a station more before their own, of which this is known.
    fn with_station(self, case: Readiness, in_turn: bool, touched: Touched) -> Masks
        requires { Room self }
        ensures { result ≡ with_station self (as_readiness case) in_turn touched }
    {
        Masks {
            ready: with_bit(self.ready, case.is_ready()),
            in_turn: with_bit(self.in_turn, in_turn),
            waiting: with_bit(self.waiting, case.is_waiting()),
            ended: with_bit(self.ended, case.has_ended()),
            reads: with_bits(self.reads, touched.reads),
            writes: with_bits(self.writes, touched.writes),
        }
    }
}

// A mask with a station more before its own, whose bit 0 is this.
fn with_bit(mask: u8, bit: bool) -> u8
    requires { mask < 128 }
    ensures { result ≡ with_bit bit mask }
{
    u8::from(bit) + 2 * mask
}

// The masks of the variables, each with a station more before its own.
fn with_bits(masks: [u8; 32], bits: [bool; 32]) -> [u8; 32]
    requires { (v : ℕ) → v < variables → get_or masks v 0 < 128 }
    ensures { result ≡ values (λ v. with_bit (get_or bits v false) (get_or masks v 0)) variables }
{
    let mut row = [0; 32];
    for v in 0..Record::VARIABLES {
        row[v] = with_bit(masks[v], bits[v]);
    }
    row
}
