//! Seats, which are sessions as their threads have them, and what they do alone between visits of cells.
#![tactic(auto)]

mod answer;
mod going_on;
mod lacking;
mod need;
mod needing;
mod outcome;
mod placing;
mod rest;
mod running;
mod seat;
mod seat_name;
mod served_cell;
mod stage;
mod starting;
mod visited;

pub use answer::{Answer, Answered, LastAnswer};
pub use base_shared::Shared;
pub use need::NextVisit;
pub use needing::{CATALOG, LEDGER, cell_of, not_catalog};
pub use outcome::{done, said, stopped, stopped_behind_lock, unsaid};
pub use placing::put_point;
pub use running::Running;
pub use seat::Seat;
pub use served_cell::ServedCell;
pub use sql_types::EndLine;
pub use stage::{Answering, ControlPoint, Stage};
pub use store_tx::TxCtx;
pub use visited::VisitedCellList;
