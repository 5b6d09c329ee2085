//! A receipt.

use base_types::{Hash, Items, Name};
use sql_types::{BlockRecord, TxEntry};

/// What shows one transaction under a digest, without the image.
#[derive(Debug, Drop)]
pub struct Receipt {
    pub database: Name,
    pub entry: TxEntry,
    /// The audit path of the entry's place in the tree of its block.
    pub path: Items<Hash>,
    /// The records of the blocks from the entry's to the digest's.
    pub records: Items<BlockRecord>,
}
