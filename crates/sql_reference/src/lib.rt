//! The plain machine: runs scripts one after another on whole lists, without locks, indexes or trees.
#![tactic(auto)]

mod again;
mod altering;
mod begun;
mod catalog;
mod changing;
mod creating;
mod effect;
mod laws;
mod serial_machine;
mod showing;

pub use laws::{differs_names_the_first, run_agrees_with_legal_items, sound_tables_have_no_event};
pub use serial_machine::{ReplayAgreement, SerialMachine};
pub use showing::show;
