//! The law of reading: what is read is a statement of the grammar, and each of these is read.
#![tactic(auto)]

mod grammar;

pub use grammar::{parsing_keeps_to_the_grammar, versions_keep_to_the_grammar};
