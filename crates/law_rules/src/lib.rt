//! Laws of what the rows of the system's tables keep.
#![tactic(auto)]

mod columns;
mod indexes;
mod laws;
mod names;

pub use columns::{changes_rise_in_legal_journals, legal_journals_have_right_rows_of_columns};
pub use indexes::indexes_are_made_in_time_in_legal_journals;
pub use laws::{
    legal_journals_have_right_rows_of_tables, legal_journals_have_versions_while_the_table_is_there,
};
pub use names::names_and_ids_are_new_in_legal_journals;
