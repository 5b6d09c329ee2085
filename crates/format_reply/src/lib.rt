//! The texts of replies.
#![tactic(auto)]

mod escape;
mod laws;
mod rows;
mod text;
mod utf8;

pub use laws::shown_rows_are_read_back;
pub use text::{reply_text, shown_reply};
