//! When rows of the catalog start, and which values the versions of tables may have by them.
#![tactic(auto)]

mod laws;

pub use laws::{legal_versions_respect_their_columns, legal_versions_start_after_their_columns};
