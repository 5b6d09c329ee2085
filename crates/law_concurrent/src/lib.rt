//! What a run of sessions side by side comes to whose seats were all joined into one, behind a past or with none, and
//! that statements have one meaning.
#![tactic(auto)]

mod behind;
mod laws;

pub use behind::{
    joined_runs_behind_a_past_agree, runs_side_by_side_behind_a_past_agree,
    statements_have_one_meaning_behind_a_past,
};
pub use law_kept_images::{
    digests_are_held_where_their_blocks_are_closed, images_of_legal_journals_verify,
};
pub use laws::{runs_of_joined_seats_agree, runs_side_by_side_agree, statements_have_one_meaning};
