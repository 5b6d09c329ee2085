//! The roots over leaves that are all there, and over entries.
#![tactic(auto)]

mod entries;
mod leaves;

pub use entries::entries_root;
pub use leaves::{four_leaf_hashes, root_over_hashes};
