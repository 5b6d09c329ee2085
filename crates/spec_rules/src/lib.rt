//! The rules of changes, which the rows of the system's tables and the versions of users' tables keep: definitions.
#![tactic(auto)]

mod laws;
mod samples;

pub use laws::the_rules_are_kept_one_by_one;
pub use samples::{rows_of_statements_keep_the_rules, rows_that_break_a_rule_are_found};
