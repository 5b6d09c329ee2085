//! The grammar's part of the spelling of definitions.
#![tactic(auto)]

mod laws;

pub use laws::{journals_of_the_grammar_encode_definitions, readings_of_the_grammar_give_written};
