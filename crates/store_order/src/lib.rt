//! Starts of versions in an order, kept in pieces, so that one can be put in and taken out at any place
//! without moving all that stand behind it.
#![tactic(auto)]

mod entry;
mod lead;
mod piece;
mod pieces;
mod starts;

pub use lead::Lead;
pub use starts::Starts;
