//! Definitions of tables.

use sql_value::{ColumnDef, Items, Name, TableId, TableKind};

/// The definition of a table.
#[derive(Debug, Drop)]
pub struct TableDef {
    pub id: TableId,
    pub name: Name,
    pub kind: TableKind,
    /// Whether the table was dropped: its rows stay, under other names.
    pub gone: bool,
    /// The name of the history part, empty for an append-only table.
    pub history: Name,
    /// The name of the ledger view, empty for a system table.
    pub view: Name,
    /// The declared columns. The ordinal of a column is its place, counted from 1.
    pub columns: Items<ColumnDef>,
    /// The ordinals of the columns that were dropped, rising. Their values stay, under other names.
    pub dropped: Items<u16>,
    pub indexes: Items<IndexDef>,
}

/// The definition of an index: the ordinals of its columns, in order.
#[derive(Debug, Drop)]
pub struct IndexDef {
    pub name: Name,
    pub ordinals: Items<u16>,
}

/// The part of a table that a name stands for.
#[derive(Clone, Copy, Debug, PartialEq, Eq)]
pub enum Part {
    /// The versions without an end.
    Base,
    /// The versions with an end.
    History,
    /// The ledger view: one row for each start and each end of a version.
    View,
    /// A system table.
    System,
}
