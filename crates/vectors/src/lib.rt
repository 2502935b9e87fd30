// Cases and their lines: a case is read from a stream, its call is made through the panel, and its answer is written as a line. The head of
// independent/cases.c says how both are spelled.
#![tactic(auto)]

mod cases;
mod fields;
mod hash;
mod kept;
mod lines;
mod states;

pub use cases::answer;
pub use fields::{MAX_FIELD, byte, field};
pub use hash::{NONE, after};
pub use lines::line;
