//! What INSERT, UPDATE and DELETE make of the rows of a table.
#![tactic(auto)]

mod among;
mod changes;
mod inserting;
mod keeping;
mod matching;
mod setting;
mod written;

pub use changes::{row_changes, row_changes_of};
pub use keeping::{arranged, kept, kept_row, value_named};
pub use written::WrittenNames;
