//! What a text is as a statement, and how a statement is printed: definitions, and the types that they speak of.
#![tactic(auto)]

mod column;
mod ledger;
mod level;
mod parse_err;
mod piece;
mod tag;
mod word;

pub use column::{Column, Draft, Item};
pub use ledger::{Choice, Choices, Ledger};
pub use level::Level;
pub use parse_err::ParseErr;
pub use piece::Piece;
pub use tag::{Tag, same_tag, tag_of};
pub use word::{CallName, OptionName, TypeName};
