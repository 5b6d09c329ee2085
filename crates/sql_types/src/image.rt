//! Images: all that a database is at a moment, as an auditor reads it.

use crate::entry::{BlockRecord, TxEntry};
use crate::table::TableDef;
use crate::version::{TypedValue, Version};
use sql_value::{Items, Name};

/// A row of an index: the values of the index's columns, and then those of the primary key's,
/// NULL being none.
pub type IndexRow = Items<Option<TypedValue>>;

/// The rows of a table.
#[derive(Debug, Drop)]
pub struct TableRows {
    /// The versions without an end, by rising start.
    pub base: Items<Version>,
    /// The versions that have ended, by rising start.
    pub history: Items<Version>,
    /// The rows of each index of the table's definition, in the order of the indexes.
    pub indexes: Items<Items<IndexRow>>,
}

/// The image of a database.
#[derive(Debug, Drop)]
pub struct Image {
    pub database: Name,
    /// By number.
    pub blocks: Items<BlockRecord>,
    /// In ledger order: those of block 0, then block 1 and so on, and then those that are in no block yet.
    pub entries: Items<TxEntry>,
    /// The definitions of the tables of users, by rising id.
    pub defs: Items<TableDef>,
    /// The rows of the two tables of the system, and then of the table of each definition.
    pub tables: Items<TableRows>,
}
