//! The cell of a table: its versions with their key order and their indexes, and the locks on its rows.
#![tactic(auto)]

mod building;
mod by_key;
mod cell;
mod comparing;
mod ending;
mod going_on;
mod guessing;
mod index;
mod laws;
mod leading;
mod leaves;
mod live_by_key;
mod noting;
mod orders;
mod reading;
mod searching;
mod showing;
mod stop;
mod version_store;
mod working;
mod writing;

pub use cell::TableCell;
pub use laws::{
    adding_an_index_is_a_visit, changing_is_a_visit, reading_is_a_visit, refusing_is_a_visit,
    releasing_is_a_visit, stopping_is_a_visit, undoing_is_a_visit,
};
pub use leaves::leaf_of;
pub use stop::TableErr;
pub use version_store::VersionStore;
