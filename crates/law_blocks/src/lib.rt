//! Laws of the ledger to which a legal journal leads: its blocks stay, how many they are and how many entries
//! they have, the roots of its entries, and the digests of its blocks.
#![tactic(auto)]

mod laws;

pub use laws::{
    closed_blocks_stay, digests_are_of_closed_blocks, entries_and_blocks_are_counted,
    histories_may_hash_so, roots_of_a_commit_rise,
};
