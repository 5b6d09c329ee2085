//! What of a transaction a receipt shows.

/// What of a transaction a receipt shows.
#[derive(Clone, Copy)]
pub enum Part {
    /// Its entry in the ledger.
    Entry,
    /// And all of its events in the table with this id.
    Table(u32),
    /// And the one of these with this number.
    Event(u32, u64),
}
