//! What the image of a legal journal tells of the database behind its first transactions.
#![tactic(auto)]

mod laws;
mod samples;

pub use laws::{
    images_tell_earlier_databases, images_tell_earlier_versions,
    later_transactions_leave_what_earlier_ones_made, tables_are_told_by_their_rows,
};
pub use samples::{altered_tables_are_told_as_they_were, later_kinds_are_of_later_tables};
