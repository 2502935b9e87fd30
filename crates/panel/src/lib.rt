// The press panel's calls, each under a plain name. Another crate calls them by these, and C, through `panel_c`, by the same.
#![tactic(auto)]

mod exports;

pub use exports::{
    press_advance, press_build, press_check, press_lights, press_readiness, press_run, press_start,
    press_step, press_undo, press_why,
};
