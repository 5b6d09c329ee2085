//! A receipt of all events of a transaction in a table.

use base_types::{Blob, Items};
use format_receipt::Receipt;

/// What shows all starts and ends of rows by one transaction in one table, without the image.
#[derive(Debug, Drop)]
pub struct TableReceipt {
    /// Of the transaction.
    pub receipt: Receipt,
    /// Of its starts and ends in the table, by number: all leaves of one tree.
    pub leaves: Items<Blob>,
}
