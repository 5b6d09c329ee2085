//! Cells that threads share. Each thread visits one cell at a time, or several in rising order, and a
//! rule of the caller's between all cells and all threads holds at every moment. `docs/BOARD.md` explains
//! how.
#![tactic(auto)]

mod board;
mod ends;
mod laws;
mod rule;
mod snapshot;
mod steps;
mod threads;
mod view;
mod visits;
mod world;

pub use base_types::Memory;
pub use board::{Board, BoardSeat, HeldCell};
pub use ends::MOST_CELLS;
pub use laws::{every_history, every_step};
pub use world::{AfterVisit, World};
