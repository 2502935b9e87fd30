// How far a trace comes: the state that its picks lead to, and its last line.
#![tactic(auto)]

ghost use Rattle.std.specs.Prelude.{◌≡◌};
ghost use Rattle.tracing.specs.View.{as_tracing};
ghost use Rattle.reaching.specs.Reaching.{reached};
ghost use Rattle.reaching.specs.View.{as_reached};

use state::State;
use text::Text;
use tracing::Tracer;

// What a trace comes to: the state reached, the count of list records, and the last text that is printed.
#[derive(Clone, Copy)]
pub struct Reached {
    pub state: State,
    pub count: u16,
    pub text: Text,
}

// Takes the pieces of a trace one after another until all is printed, and answers what it comes to. The picks taken write to the log and to the
// kept states as in the trace. Where all is printed already, the text is empty.
pub fn reach(first: Tracer, list: &[u8], log: &mut [u8], kept: &mut [u8], picks: &[u8]) -> Reached
    ensures { as_reached result (record { log = log.new; kept = kept.new }) ≡ reached list.now picks.now (record { log = log.old; kept = kept.old }) (as_tracing first) }
{
    let mut tracer = first;
    let mut text = Text::empty();
    while !tracer.done() {
        let printed = tracer.next(list, log, kept, picks);
        text = printed.text;
        tracer = printed.tracer;
    }
    Reached {
        state: tracer.state,
        count: tracer.count,
        text,
    }
}
