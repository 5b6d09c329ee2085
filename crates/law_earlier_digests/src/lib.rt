//! That images verify with digests which were issued of their journal when it was shorter.
#![tactic(auto)]

mod laws;

pub use laws::images_verify_with_earlier_digests;
