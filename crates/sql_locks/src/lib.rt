//! The locks that statements want in the cell of a table.
#![tactic(auto)]

mod inserted;
mod query;
mod rows;

pub use query::query_requests;
pub use rows::row_requests;
