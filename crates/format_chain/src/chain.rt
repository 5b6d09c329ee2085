//! A chain of records.

use base_types::{Items, Name};
use sql_types::BlockRecord;

/// What shows that a newer digest continues an older one, without the image.
#[derive(Debug, Drop)]
pub struct Chain {
    pub database: Name,
    /// The records of the blocks from the older digest's to the newer one's.
    pub records: Items<BlockRecord>,
}
