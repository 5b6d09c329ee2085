//! Locks: what a transaction holds of a cell so that others leave it alone.

use sql_value::{Items, TxId, Value};

/// How an item is locked.
#[derive(Clone, Copy, Debug, PartialEq, Eq)]
pub enum Mode {
    /// Intent: keys of the table are read.
    IS,
    /// Intent: keys of the table are changed.
    IX,
    /// Shared: the item is read.
    S,
    /// Exclusive: the item is changed.
    X,
}

/// The values of a primary key, by key position.
pub type Key = Items<Value>;

/// What is locked.
#[derive(Debug, Drop)]
pub enum Item {
    /// The whole table, or the catalog.
    Whole,
    /// The rows of one key, also where there is none.
    Key(Key),
}

/// A lock that a statement needs.
#[derive(Debug, Drop)]
pub struct LockRequest {
    pub item: Item,
    pub mode: Mode,
}

/// A lock that a transaction holds.
#[derive(Debug, Drop)]
pub struct Hold {
    pub tx: TxId,
    pub request: LockRequest,
}
