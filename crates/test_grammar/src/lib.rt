//! Worked examples of the grammar.
#![tactic(auto)]

mod samples;

pub use samples::{texts_are_none, texts_are_statements};
