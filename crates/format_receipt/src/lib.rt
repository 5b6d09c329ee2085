//! The bytes of a receipt.
#![tactic(auto)]

mod laws;
mod reading;
mod receipt;
mod writing;

pub use laws::equal_bytes_are_of_equal_receipts;
pub use reading::{entry_behind, path_at, read_receipt, records_at};
pub use receipt::Receipt;
pub use writing::{put_entry, put_path, put_records, write_receipt};
