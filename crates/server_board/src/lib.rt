//! The world of a server: what the cells of a board and the seats at it mean, where sessions run over the
//! cells of a database.
#![tactic(auto)]

mod giving;
mod world;

pub use giving::{give_all_with, give_with};
pub use world::{LedgerWorld, SeatKnowledge, Serving};
