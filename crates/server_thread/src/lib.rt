//! What one thread of a run does at the board: a session to its end, or the builder's visits.
#![tactic(auto)]

mod builder;
mod session;
mod settling;
mod shared;
mod snapshot;
mod visits;
mod worker;

pub use builder::builder_job;
pub use server_board::Serving;
pub use server_engine::{Cell, SessionEnd, first_cells, runs_start};
pub use session::session_job;
pub use shared::{Cells, Run, ThreadSeat};
pub use worker::Job;
