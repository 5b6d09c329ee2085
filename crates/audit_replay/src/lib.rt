//! Running a journal again: whether it is legal, and the image to which it leads.
#![tactic(auto)]

mod entry;
mod image;
mod item;
mod past;
mod running;

pub use past::{Past, past_of};
pub use running::{RanAgain, ReplayErr, replay, run_again};
