//! The top call of the server: words and bytes that come in, files and texts that go out.
#![tactic(auto)]

mod generate;
mod part;
mod run;
mod run_from;
mod saved;
mod start;
mod step;
mod step_from;
mod top;
mod version;

pub use cli_audit::{Coverage, Ended, INPUT_LIMIT, Status, coverage_text};
pub use top::ledgerd;
