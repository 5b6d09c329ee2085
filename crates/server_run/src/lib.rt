//! Sessions that run side by side, each in a thread of its own, while a builder closes blocks.
#![tactic(auto)]

mod parts;
mod running;
mod whole;

pub use running::{run_all, run_all_behind, run_and_close, run_and_close_behind};
