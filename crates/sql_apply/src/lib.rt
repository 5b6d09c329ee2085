//! Tables as lists of versions: changes carried out and undone, and the events that they are.
#![tactic(auto)]

mod changing;
mod events;
mod undoing;

pub use changing::change_table;
pub use events::{all_events, events_of};
pub use undoing::undo;
