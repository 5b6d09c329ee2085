//! Visits of a table's cell, in which statements of rows run, go back to savepoints and add indexes.
#![tactic(auto)]

mod rows_back;
mod rows_found;
mod rows_index;
mod rows_release;
mod visits;

pub use store_table::TableCell;
pub use visits::visit_rows;
