//! Why a transaction isn't committed.

use sql_types::Script;

/// There is no more memory. The script comes back to the transaction, which may still end without a commit.
#[derive(Debug, Drop)]
pub struct CommitErr {
    pub script: Script,
}
