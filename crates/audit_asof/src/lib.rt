//! A database behind its first transactions, opened from an image of it, and what SELECTs are answered over it.
#![tactic(auto)]

mod as_of;
mod by_key;
mod definitions;
mod earlier_txs;
mod opened_table;
mod rows;
mod showing;
mod tables;
mod versions;

pub use as_of::{AsOf, AsOfErr};
