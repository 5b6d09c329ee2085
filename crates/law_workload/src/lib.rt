//! What the generator's workload comes to, however the turns of its sessions fall, and that its runs take turns.
#![tactic(auto)]

mod laws;
mod texts;

pub use laws::{runs_of_the_workload_take_turns, turns_come_to_one_end};
pub use texts::texts_are_read;
