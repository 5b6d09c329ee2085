//! Row events: the starts and ends of the versions of rows, which are the leaves of the ledger's trees.

use crate::version::EventId;
use sql_value::{Items, SqlType, TableId, TxId, Value};

/// The start or the end of a version of a row.
#[derive(Debug, Drop)]
pub struct Event {
    pub table: TableId,
    /// The transaction that started or ended the version.
    pub tx: TxId,
    /// The number of the event in its transaction, from 0.
    pub seq: u64,
    /// For an end (DELETE), the event that started the version; none for a start (INSERT).
    pub ends: Option<EventId>,
    /// The values of the version, by rising ordinal.
    pub columns: Items<EventField>,
}

/// A value of a column, with its type.
#[derive(Debug, Drop)]
pub struct EventField {
    /// The place of the column in its table, counted from 1.
    pub ordinal: u16,
    pub ty: SqlType,
    pub value: Value,
}
