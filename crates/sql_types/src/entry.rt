//! Transaction entries and the records of blocks, which are what the ledger's digests are made of.

use sql_value::{Hash, Items, Name, TableId, TxId};

/// What the ledger says of a transaction that was committed.
#[derive(Debug, Drop)]
pub struct TxEntry {
    pub id: TxId,
    /// The block that holds the entry.
    pub block: u64,
    /// The place of the entry in its block, counted from 0.
    pub ordinal: u64,
    /// When it was committed, in ticks of 100 ns since 1970-01-01T00:00:00.
    pub time: u64,
    /// The name of the session that committed it.
    pub principal: Name,
    /// By rising table, the root of the tree over the transaction's events in each table where it has some.
    pub roots: Items<(TableId, Hash)>,
}

/// What is hashed of a block.
#[derive(Clone, Copy, Debug, PartialEq, Eq)]
pub struct BlockRecord {
    /// The number of the block, from 0.
    pub id: u64,
    /// The root of the tree over the bytes of its entries.
    pub root: Hash,
    /// How many entries it has.
    pub size: u64,
    /// The hash of the record before, 32 zero bytes for block 0.
    pub previous: Hash,
}
