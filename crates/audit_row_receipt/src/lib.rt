//! Receipts of rows checked and made: of all events of a transaction in a table, and of one event.
#![tactic(auto)]

mod check;
mod leaves;
mod make;
mod numbers;
mod roots;

pub use check::{check_row_receipt, check_table_receipt};
pub use format_row_receipt::{RowReceipt, TableReceipt};
pub use make::{make_row_receipt, make_table_receipt};
