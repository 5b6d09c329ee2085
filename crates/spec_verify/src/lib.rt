//! Whether an image holds together and with digests, and what a digest covers: definitions, and their laws.
#![tactic(auto)]

mod groups;
mod laws;
mod place;
mod samples;
mod sentences;

pub use format_image::Image;
pub use groups::{firsts_of_groups_merge, leasts_of_groups_merge};
pub use laws::{
    bytes_are_judged_by_their_image, entries_and_their_events_are_covered,
    only_blocks_up_to_its_own_are_covered, spellings_of_one_image_have_one_verdict,
    the_first_invariant_that_fails_is_named, yes_is_said_of_what_holds,
};
pub use place::{Invariant, Place, Verdict};
pub use samples::{
    an_honest_image_holds, an_honest_image_holds_in_bytes, damage_is_found,
    roots_and_digests_of_others_are_found, rows_that_break_a_rule_are_found,
    what_came_later_is_not_covered,
};
pub use sentences::{
    definitions_hold_where_rows_encode_them, rows_of_indexes_are_compared_exactly,
    the_first_wrong_block_is_named, the_first_wrong_digest_is_named,
    the_first_wrong_entry_is_named, the_first_wrong_index_is_named,
    the_least_wrong_definition_is_named, the_least_wrong_version_is_named, wrong_ids_are_named,
    yes_is_said_of_what_holds_together,
};
