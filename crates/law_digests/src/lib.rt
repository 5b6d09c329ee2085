//! How many digests an input asks for at most, and how long their file is: it can be read again.
#![tactic(auto)]

mod inputs;
mod laws;

pub use inputs::statements_are_within_their_input;
pub use laws::{
    digest_files_can_be_read, digest_statements_have_their_length,
    digests_are_no_more_than_their_lines,
};
