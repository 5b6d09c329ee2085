//! The lines of an input, run one after another on one thread: what is written and saved of it.
#![tactic(auto)]

mod leaving;
mod lines;
mod number;
mod running;
mod sessions;
mod weaving;

pub use running::{run_lines, run_lines_behind};
