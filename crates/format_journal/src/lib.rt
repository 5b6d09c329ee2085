//! The bytes of the journal, and its side rules.
#![tactic(auto)]

mod encoded;
mod laws;
mod reading;
mod rules;
mod writing;

pub use encoded::texts_are_encodable;
pub use laws::equal_bytes_are_of_equal_journals;
pub use reading::read_journal;
pub use sql_types::{Journal, JournalItem, Script};
pub use writing::write_journal;
