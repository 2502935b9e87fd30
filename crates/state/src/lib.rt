// What a run has reached: the one value that is stepped, judged, lit and kept.
#![tactic(auto)]

ghost use Rattle.std.specs.Prelude.{◌≡◌};
ghost use Rattle.rules.specs.State.{zeros};
ghost use Rattle.state.specs.View.{as_state};

// The variables, each station's position, priority and count of being passed over, the number of stations n, the largest reset b, and the number of
// standing steps m.
#[repr(C)]
#[derive(Clone, Copy, Debug, PartialEq, Eq)]
pub struct State {
    pub vars: [u32; 32],
    pub positions: [u16; 8],
    pub priorities: [i16; 8],
    pub counts: [u16; 8],
    pub n: u8,
    pub b: u8,
    pub m: u16,
}

impl State {
    // All zeros.
    pub fn zeros() -> State
        ensures { as_state result ≡ zeros }
    {
        State {
            vars: [0; 32],
            positions: [0; 8],
            priorities: [0; 8],
            counts: [0; 8],
            n: 0,
            b: 0,
            m: 0,
        }
    }
}
