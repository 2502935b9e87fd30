// The order of what is printed: the start's line, a line after each pick taken, the last line.
ghost use Rattle.std.specs.Prelude.{◌≡◌, if◌then◌else◌};
ghost use Rattle.rules.specs.Names.{LENGTH};
ghost use Rattle.rules.specs.Trace.{wrong_picks};
ghost use Rattle.tracing.specs.Tracing.{piece, pick_piece, all_printed};
ghost use Rattle.tracing.specs.View.{as_tracing, as_piece};

use crate::{Next, Printed, Tracer};
use record::{Pick, Refusal};
use text::{Text, end_line};

// What comes after the start's line: the picks, or the last line where the picks file is wrong.
fn after_start(picks: &[u8]) -> Next
    ensures { result ≡ (if wrong_picks picks.now then Next.End LENGTH else Next.Pick 0) }
{
    if picks::wrong(picks) {
        return Next::End(Refusal::Length.number());
    }
    Next::Pick(0)
}

impl Tracer {
    // Whether all is printed.
    pub fn done(self) -> bool
        ensures { result ≡ all_printed (as_tracing self) }
    {
        matches!(self.next, Next::Nothing)
    }

    // The next piece of the trace. A step taken writes its record to the log, and keeps the state that it reaches where it has a kept place.
    pub fn next(self, list: &[u8], log: &mut [u8], kept: &mut [u8], picks: &[u8]) -> Printed
        ensures { as_piece result (record { log = log.new; kept = kept.new }) ≡ piece list.now picks.now (record { log = log.old; kept = kept.old }) (as_tracing self) }
    {
        let own = sizes::used(list, self.count);
        match self.next {
            Next::Start => self.print_then(line::of(self.state, own), after_start(picks)),
            Next::Pick(i) => self.pick(own, log, kept, picks, i),
            Next::End(number) => self.print_then(end_line(number), Next::Nothing),
            Next::Nothing => self.print_then(Text::empty(), Next::Nothing),
        }
    }

    // A piece of the trace: this text, and then what comes next.
    fn print_then(self, text: Text, next: Next) -> Printed
        ensures { result ≡ record { text = text; tracer = record { state = self.state; count = self.count; next = next } } }
    {
        Printed {
            text,
            tracer: Tracer { next, ..self },
        }
    }

    // The piece of the pick at record i: the line after it, or the last line where it is refused or there is none.
    fn pick(self, list: &[u8], log: &mut [u8], kept: &mut [u8], picks: &[u8], i: usize) -> Printed
        ensures { as_piece result (record { log = log.new; kept = kept.new }) ≡ pick_piece list.now picks.now (record { log = log.old; kept = kept.old }) (as_tracing self) i }
    {
        if picks.len() / 2 <= i {
            return self.print_then(end_line(0), Next::Nothing);
        }
        let taken = picks::taken(self.state, list, log, kept, Pick::at(picks, i));
        let tracer = Tracer {
            state: taken.state,
            ..self
        };
        if taken.number != 0 {
            return tracer.print_then(end_line(taken.number), Next::Nothing);
        }
        tracer.print_then(line::of(taken.state, list), Next::Pick(i + 1))
    }
}
