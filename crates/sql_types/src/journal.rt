//! The journal: what was committed and closed, in order.

use sql_value::{Items, Name, Text, TxId};

/// The statements of a transaction in order, each with the text of its reply.
pub type Script = Items<(Text, Text)>;

/// The version of the journal of a running server.
pub const JOURNAL_VERSION: u8 = 2;

/// The greatest number of transactions in a block.
pub const MAX_BLOCK: u32 = 100_000;

/// A committed transaction, or the closing of a block.
#[derive(Debug, Drop)]
pub enum JournalItem {
    Tx {
        id: TxId,
        /// The name of the session that committed it.
        session: Name,
        /// When it was committed, in ticks of 100 ns since 1970-01-01T00:00:00.
        time: u64,
        /// Whether BEGIN opened it.
        explicit: bool,
        script: Script,
    },
    /// The first so many pending transactions make a block.
    Close(u32),
}

/// The transactions of a database in the order of their commits, and the closings of blocks between them.
#[derive(Debug, Drop)]
pub struct Journal {
    /// Which statements its scripts may have, and what number its bytes bear.
    pub version: u8,
    pub database: Name,
    pub items: Items<JournalItem>,
}
