// The line of a state: m, the ready mask, the in-turn mask, the priorities and the counts.
#![tactic(auto)]

ghost use Rattle.std.specs.Prelude.{◌≡◌, [], ◌∷◌, ◌++◌, ◌≤◌};
ghost use Rattle.rules.specs.Names.{max_stations};
ghost use Rattle.rules.specs.Trace.{decimal, priorities_text, counts_text};
ghost use Rattle.state.specs.View.{as_state};
ghost use Rattle.text.specs.View.{text_of};
ghost use Rattle.line.specs.Line.{line_of};

use record::Record;
use state::State;
use text::Text;

// The line of a state; nothing for a state of more than 8 stations, which no run reaches.
pub fn of(state: State, list: &[u8]) -> Text
    ensures { text_of result ≡ line_of list.now (as_state state) }
{
    if Record::MAX_STATIONS < state.n as usize {
        return Text::empty();
    }
    let lit = lights::lights(state, list);
    spelled(&state, lit.ready, lit.in_turn)
}

// The line of a state with these masks: every number after the first comes after a single space.
fn spelled(state: &State, ready: u8, in_turn: u8) -> Text
    requires { state.now.n ≤ max_stations }
    ensures { text_of result ≡ decimal state.now.m ++ (32 ∷ decimal ready) ++ (32 ∷ decimal in_turn) ++ priorities_text (as_state state.now) state.now.n ++ counts_text (as_state state.now) state.now.n ++ (10 ∷ []) }
{
    let n = state.n as usize;
    let masks = Text::empty()
        .decimal(state.m as u32)
        .put(b' ')
        .decimal(ready as u32)
        .put(b' ')
        .decimal(in_turn as u32);
    let priorities = state.priorities[..n]
        .iter()
        .fold(masks, |text, p| text.put(b' ').signed(*p));
    let counts = state.counts[..n]
        .iter()
        .fold(priorities, |text, c| text.put(b' ').decimal(*c as u32));
    counts.put(b'\n')
}
