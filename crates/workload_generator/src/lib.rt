//! The statements of the generator's workload: four sessions that insert rows each into its own table and
//! change every tenth. Each statement's text is made by its number.
#![tactic(auto)]

mod law;
mod texts;
mod workload;

pub use law::statements_law;
pub use workload::{SessionTexts, Workload};
