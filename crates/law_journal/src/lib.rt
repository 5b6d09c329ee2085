//! What one transaction after another keeps: definitions, and laws about them.
#![tactic(auto)]

mod laws;
mod rows;

pub use laws::{
    append_only_tables_keep_their_rows, changes_are_fine, cuts_of_legal_journals_are_legal,
    fine_changes_keep, legal_journals_keep, refusals_leave_everything, scripts_keep,
    statements_keep,
};
pub use rows::rows_fit_so_far;
