//! What is checked of a statement before any row is looked at: names, counts, columns and classes, in their
//! order.
#![tactic(auto)]

mod accepting;
mod altering;
mod creating;
mod indexing;
mod names;
mod rows;
mod selecting;

pub use altering::{WithColumn, altered_name, altered_table, dropped_table};
pub use creating::{Definitions, new_table};
pub use indexing::new_index;
pub use names::{own_part, part_named};
pub use rows::{check_stmt, table_of};
pub use selecting::check_select;
