//! The run of the generator's workload: its sessions side by side, what is counted of its image, and the verdict.
#![tactic(auto)]

mod counting;
mod report;
mod running;

pub use report::{CountedRun, Report};
pub use running::{count_run, run_and_count, run_workload};
pub use server_run::{run_all, run_all_behind};
