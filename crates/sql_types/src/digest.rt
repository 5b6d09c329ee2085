//! Digests, and what an auditor holds of one.

use sql_value::{Hash, Name};

/// What the ledger says of its newest block.
#[derive(Debug, Drop)]
pub struct Digest {
    pub database: Name,
    pub block: u64,
    /// The hash of the block.
    pub hash: Hash,
    /// The time of the block's last entry, in ticks of 100 ns since 1970-01-01T00:00:00.
    pub last_commit: u64,
    /// When the digest was made, in the same ticks.
    pub made: u64,
}

/// What a verifier takes of a digest.
#[derive(Debug, Drop)]
pub struct HeldDigest {
    pub database: Name,
    pub block: u64,
    pub hash: Hash,
}
