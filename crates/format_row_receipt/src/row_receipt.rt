//! A receipt of one event.

use audit_paths::Side;
use base_types::{Blob, Hash, Items};
use format_receipt::Receipt;

/// What shows one start or end of a version of a row, without the image.
#[derive(Debug, Drop)]
pub struct RowReceipt {
    /// Of its transaction.
    pub receipt: Receipt,
    /// Of the start or end.
    pub leaf: Blob,
    /// From the leaf up to the root of the transaction's tree in the table: where each other half stands, and
    /// its hash.
    pub steps: Items<(Side, Hash)>,
}
