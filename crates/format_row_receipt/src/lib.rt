//! The bytes of receipts of rows: of all events of a transaction in a table, and of one event.
#![tactic(auto)]

mod body;
mod laws;
mod leaves;
mod reading;
mod row_receipt;
mod steps;
mod table_receipt;
mod writing;

pub use laws::equal_bytes_are_of_equal_row_receipts;
pub use reading::{read_row_receipt, read_table_receipt};
pub use row_receipt::RowReceipt;
pub use table_receipt::TableReceipt;
pub use writing::{write_row_receipt, write_table_receipt};
