//! Which starts and ends have a leaf: all to which a legal journal leads, where they have room in one.
#![tactic(auto)]

mod laws;
mod room;

pub use laws::events_of_legal_journals_have_leaves;
pub use room::{are_utf8_texts, have_room};
