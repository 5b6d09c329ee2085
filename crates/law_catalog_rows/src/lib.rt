//! What the system tables spell: the definitions that their rows make.
#![tactic(auto)]

mod laws;
mod samples;

pub use laws::{
    legal_journals_encode_definitions, legal_journals_have_their_rows, statements_keep_definitions,
};
pub use samples::{
    dropped_things_have_their_rows, encoding_is_found_out, odd_definitions_are_not_encoded,
    the_greatest_change_counts,
};
