//! The law of printing: what is printed is read back as what it was.
#![tactic(auto)]

mod law;

pub use law::printing_is_read_back;
