//! The end of a run: how its ledger is closed, and what is written and saved.
#![tactic(auto)]

mod closing;
mod finished;
mod leaving;

pub use closing::close_all;
pub use finished::FinishedRun;
pub use leaving::{left_by, left_closed};
