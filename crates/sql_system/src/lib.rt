//! The tables of the system: their definitions, and the rows that they have of the definitions of all tables.
#![tactic(auto)]

mod changing;
mod system;
mod system_rows;

pub use changing::next_change;
pub use sql_parts::copy_def;
pub use system::{
    changed_column_start, changed_table_start, column_starts, first_tables, index_starts,
    table_start,
};
