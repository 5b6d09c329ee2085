//! The bytes of a chain of records, by which two digests are joined.
#![tactic(auto)]

mod chain;
mod laws;
mod reading;
mod writing;

pub use chain::Chain;
pub use laws::equal_bytes_are_of_equal_chains;
pub use reading::read_chain;
pub use writing::write_chain;
