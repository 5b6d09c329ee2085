//! What a statement is answered.

use crate::version::Row;
use sql_value::{Hash, Items, Refusal, TxId};

/// The reply to a statement.
#[derive(Debug, Drop)]
pub enum Reply {
    /// BEGIN opened this transaction.
    Begun(TxId),
    /// So many rows were changed.
    Changed(u64),
    /// The rows that a SELECT shows.
    Rows(Items<Row>),
    /// A table or an index was made.
    Made,
    /// A savepoint was set.
    Saved,
    /// The transaction went back to a savepoint.
    Back,
    /// The digest of a block.
    Digest { block: u64, hash: Hash },
    /// The image of the first so many items of the journal was kept.
    Image(u64),
    /// COMMIT, and ROLLBACK of a whole transaction.
    NoOutput,
    Refused(Refusal),
}
