//! What is told of a run of the workload.

use server_result::RunOutcome;
use spec_verify::Verdict;

/// What a run of the workload came to.
#[derive(Clone, Copy, Debug)]
pub struct Report {
    /// How many transactions the journal has.
    pub transactions: u64,
    /// How many rows stand in the workload's tables.
    pub rows: u64,
    /// How many versions of them have ended.
    pub history: u64,
    /// The sum of what the rows have in `v`.
    pub sum: u128,
    /// The verdict on the image.
    pub verdict: Verdict,
}

/// What a run of the workload left, and what is counted of it.
#[derive(Drop)]
pub struct CountedRun {
    pub ran: RunOutcome,
    pub report: Report,
}
