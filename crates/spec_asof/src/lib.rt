//! What a database was behind its first transactions, by an image that was made later, and what a text is answered
//! over it: definitions.
#![tactic(auto)]

mod reply;

pub use reply::AsOfReply;
