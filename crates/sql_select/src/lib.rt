//! The rows that a SELECT shows: those that its condition takes, sorted, and of each what is to be shown.
#![tactic(auto)]

mod filtering;
mod ordering;
mod reading;
mod selecting;
mod showing;
mod totals;

pub use reading::query_rows;
pub use selecting::select;
