//! Cuts the text of a statement into its tokens.
#![tactic(auto)]

mod cut;
mod front;
mod law;
mod token;

pub use cut::tokens;
pub use law::longest_law;
pub use token::{Kind, LexErr, Token};
