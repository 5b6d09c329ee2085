//! Whether the rows of the two tables of the system encode the definitions of all others.
#![tactic(auto)]

mod changes;
mod first_values;
mod items;
mod latest_rows;
mod names;
mod rules;
mod spelling;

pub use first_values::{number_at, table_of};
pub use items::{has_part_row, system_rows_of};
pub use latest_rows::is_past;
pub use names::{is_ledger_name, is_proper_name, is_system_name, row_has_name};
pub use spelling::{
    base_at, definition_fault, ids_encoded, is_encoded, table_place, worst_def, worst_row,
};
