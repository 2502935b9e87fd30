// What the trace prints: the tracer, which says which text comes next.
#![tactic(auto)]

use state::State;
use text::Text;

mod opening;
mod order;

pub use opening::open;

// What a tracer does next: it prints the start's line, takes the pick at a record of the picks, prints the last line with a number, or
// nothing, since all is printed. The number is a C struct's answer, Built's or Outcome's, and so no Refusal.
#[derive(Clone, Copy, Debug, PartialEq, Eq)]
pub enum Next {
    Start,
    Pick(usize),
    End(u8),
    Nothing,
}

// Where a trace stands: the state reached, the count of list records, and what comes next.
#[derive(Clone, Copy, Debug, PartialEq, Eq)]
pub struct Tracer {
    pub state: State,
    pub count: u16,
    pub next: Next,
}

// A piece of the trace: what is printed, and where the trace stands after it.
#[derive(Clone, Copy)]
pub struct Printed {
    pub text: Text,
    pub tracer: Tracer,
}
