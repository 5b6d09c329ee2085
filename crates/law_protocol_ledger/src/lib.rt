//! Visits of the ledger's cell keep cells and seats standing together, and so does what a seat does alone.
#![tactic(auto)]

mod ledger_visits;
mod seat_steps;

pub use ledger_visits::{
    assigning_an_id_keeps_standing, closing_keeps_standing, committing_keeps_standing,
    digests_keep_standing, keeping_an_image_keeps_standing, reading_the_point_keeps_standing,
};
pub use seat_steps::{splits_and_joins_keep_standing, steps_alone_keep_standing};
