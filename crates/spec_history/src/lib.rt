//! Histories of sessions, and when they agree with a journal: definitions.
#![tactic(auto)]

mod laws;

pub use laws::statements_have_such_a_meaning;
