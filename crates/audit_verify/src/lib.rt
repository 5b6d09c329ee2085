//! The verifier: what is said of the bytes of an image with the digests that an auditor holds.
#![tactic(auto)]

mod blocks;
mod entries;
mod groups;
mod ids;
mod indexes;
mod least;
mod merged;
mod order;
mod verdict;
mod versions;
mod workers;

pub use groups::{GroupFaults, group_faults};
pub use spec_verify::{Invariant, Place, Verdict};
pub use verdict::verify_image;
pub use workers::{verify, verify_image_with_workers};
