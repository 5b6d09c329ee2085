//! Whether a row has the columns of its table, and NULL only where they may be NULL: those of a system's table as they
//! are, those of any other as of the row's start, by the rows of the table of columns that started before it.
#![tactic(auto)]

mod column_rows;
mod columns;
mod positions;

pub use column_rows::ColumnRows;
pub use columns::{has_columns, same_type};
pub use positions::{Positions, Rank};
