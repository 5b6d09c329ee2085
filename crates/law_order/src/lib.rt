//! That all which the transcripts of a history show stands in one order.
#![tactic(auto)]

mod laws;

pub use laws::histories_are_in_one_order;
