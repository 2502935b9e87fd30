// Where a trace begins: the list built from the program, and the start.
ghost use Rattle.std.specs.Prelude.{◌≡◌};
ghost use Rattle.tracing.specs.Tracing.{ending, opened};
ghost use Rattle.tracing.specs.View.{as_tracing, as_opened};

use crate::{Next, Tracer};
use record::Refusal;
use state::State;

// The trace of a program and a start file, whose first byte is B: the list is built into one buffer, and the start records go to the log. The
// kept states' buffer is only asked for its room. A refusal, the program's first, comes next as the last line.
pub fn open(program: &[u8], starts: &[u8], list: &mut [u8], log: &mut [u8], kept: &[u8]) -> Tracer
    ensures { as_opened result list.new (record { log = log.new; kept = kept.now }) ≡ opened program.now starts.now list.old (record { log = log.old; kept = kept.now }) }
{
    let built = build::build(program, list);
    if built.number != 0 {
        return ending(built.number);
    }
    let [b, resets @ ..] = starts else {
        return ending(Refusal::Reset.number());
    };
    let started = run::start(sizes::used(list, built.count), *b, resets, log, kept);
    if started.number != 0 {
        return ending(started.number);
    }
    Tracer {
        state: started.state,
        count: built.count,
        next: Next::Start,
    }
}

// A trace that is refused before it begins: only the last line comes.
fn ending(number: u8) -> Tracer
    ensures { as_tracing result ≡ ending number }
{
    Tracer {
        state: State::zeros(),
        count: 0,
        next: Next::End(number),
    }
}
