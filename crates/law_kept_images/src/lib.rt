//! The images that the sessions of a run kept are accepted.
#![tactic(auto)]

mod behind;
mod laws;

pub use behind::kept_images_behind_a_past_are_accepted;
pub use law_accepts::{
    digests_are_held_where_their_blocks_are_closed, images_of_legal_journals_verify,
};
pub use law_sequential::{
    agreement_behind_a_past_is_of_any_order, digests_before_an_image_are_closed_in_it,
    digests_behind_a_past_are_closed_in_later_images, transcripts_agree_behind_the_past,
};
pub use laws::kept_images_are_accepted;
