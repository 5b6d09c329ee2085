//! The columns of a table's parts, the keys of its rows, the rows as each part shows them, and how the versions
//! that stand are found.
#![tactic(auto)]

mod columns;
mod copying;
mod fixing;
mod found;
mod keyed;
mod keys;
mod laws;
mod live;
mod live_columns;
mod order;
mod rows;
mod values;

pub use columns::{Columns, column_of, place_of, shown};
pub use copying::{copy_columns, copy_def, copy_indexes};
pub use fixing::key_fixed;
pub use found::LiveVersions;
pub use keyed::KeyedTable;
pub use keys::{
    compare_at, compare_by_key, compare_to_key, compare_values, has_key, key_of, key_places,
    same_key,
};
pub use laws::sorted_lists_rise_stably;
pub use live::live_by_key;
pub use live_columns::{LiveColumns, dropped_flags, is_dropped};
pub use rows::{base_row, part_rows};
pub use values::{Valued, copy_or_null, number, row_of, stored_row};
