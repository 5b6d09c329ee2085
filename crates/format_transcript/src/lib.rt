//! The text of transcripts, entry by entry.
#![tactic(auto)]

mod end_line;
mod entry;

pub use entry::{push_end, push_statement};
