//! The entries and blocks to which a journal leads: definitions, and laws about them.
#![tactic(auto)]

mod laws;

pub use laws::{entries_fall_into_blocks, items_add_to_the_ledger};
