//! Two images under one digest:
//! either all that it covers is the same in both, or two byte strings, hashed at one place of both, have one
//! hash.
#![tactic(auto)]

mod blocks;
mod chain;
mod each;
mod entries;
mod found;
mod images;
mod laws;
mod leaves;
mod trees;

pub use chain::{bytes_of_both, is_same_record, record_at};
pub use each::{extract_each, last_of};
pub use found::{Collision, ImageComparison};
pub use images::extract;
pub use laws::{
    accepted_bytes_have_one_history_or_a_collision, accepted_images_meet_each_digest,
    later_digests_cover_more,
};
pub use leaves::leaves_in;
pub use trees::{split_of, tree_halves, tree_root};
