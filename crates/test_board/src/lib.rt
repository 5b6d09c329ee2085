//! The smallest world for a board, to read and to test: two counters, and sessions that count in them side
//! by side.
#![tactic(auto)]

mod gate;
mod run;
mod snapshot;
#[cfg(test)]
mod tests;
mod visit;
mod world;

pub use gate::{Gate, OpenGate};
pub use run::{Session, run_all};
pub use snapshot::look;
pub use visit::{count_once, new_board};
pub use world::{Counter, CounterId, CountersWorld, Share, Totals};
