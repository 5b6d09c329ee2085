//! Row events as the leaves of the ledger's trees.
#![tactic(auto)]

mod event_ref;
mod laws;
mod leaf;
mod reading;
mod typed;
mod value_reading;

pub use event_ref::{EventRef, write_leaf};
pub use laws::equal_leaves_are_of_equal_events;
pub use leaf::{put_type, write_event};
pub use reading::{read_event, type_at};
pub use typed::{put_typed, typed_at};
