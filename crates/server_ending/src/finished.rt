//! What the threads of a run leave.

use server_engine::{Cell, SessionEnd};

/// What is left when all threads have ended.
#[derive(Drop)]
pub struct FinishedRun {
    pub cells: Vec<Cell>,
    pub setup: SessionEnd,
    /// In the order of the plan.
    pub ends: Vec<SessionEnd>,
}
