//! Images of legal journals hold: nothing is found at fault in what a server could have made.
#![tactic(auto)]

mod laws;

pub use laws::{
    cuts_have_room_where_journals_have, digests_are_held_where_their_blocks_are_closed,
    honest_blocks_hold, honest_chains_hold, honest_changes_are_of_one_statement,
    honest_definitions_hold, honest_digests_hold, honest_ids_hold, honest_indexes_hold,
    honest_roots_hold, honest_versions_hold, images_of_legal_journals_hold,
    images_of_legal_journals_verify,
};
