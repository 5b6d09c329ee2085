//! What the commands saved, and two calls in a row: what one saved, the other accepts. Laws over the contract of
//! the top call.
#![tactic(auto)]

mod commands;
mod digests;
mod values;

pub use commands::what_was_saved_is_accepted;
pub use digests::digests_that_were_put_can_be_read;
pub use values::saved_files_keep_the_headline;
