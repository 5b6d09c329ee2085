//! The bytes of transaction entries and of the records of blocks, and the hash of a block.
#![tactic(auto)]

mod laws;
mod reading;
mod record;
mod writing;

pub use laws::equal_bytes_are_of_equal_values;
pub use reading::{read_entry, roots_at};
pub use record::{block_hash, read_record, record_bytes};
pub use sql_types::{BlockRecord, TxEntry};
pub use writing::{put_roots, write_entry};
