//! The law that snapshots are answered over serial runs.
#![tactic(auto)]

mod law;

pub use law::snapshots_are_of_serial_runs;
pub use server_reader::{images_of_cuts_are_encodable, push_answers};
