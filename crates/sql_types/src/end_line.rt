//! The line with which a transaction ends.

use sql_value::TxId;

/// The line with which a transaction ends.
#[derive(Clone, Copy, Debug, PartialEq, Eq)]
pub enum EndLine {
    /// It was committed, at this place in ledger order, counted from 1.
    Committed { id: TxId, place: u64 },
    /// It ended otherwise, after so many were committed.
    Ended { id: TxId, after: u64 },
}
