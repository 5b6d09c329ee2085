//! Visits of the tables' cells and of the catalog's keep cells and seats standing together.
#![tactic(auto)]

mod catalog_visits;
mod table_visits;

pub use catalog_visits::{
    altering_a_table_keeps_standing, creating_a_table_keeps_standing,
    creating_an_index_keeps_standing, giving_back_keeps_standing,
    lacking_memory_in_the_catalog_keeps_standing, looking_up_keeps_standing,
    meeting_a_lock_in_the_catalog_keeps_standing, reading_a_system_table_keeps_standing,
    refusing_a_create_keeps_standing, releasing_the_catalog_keeps_standing,
};
pub use table_visits::{
    adding_an_index_keeps_standing, changing_rows_keeps_standing,
    lacking_memory_in_a_table_keeps_standing, meeting_a_lock_in_a_table_keeps_standing,
    reading_rows_keeps_standing, refusing_rows_keeps_standing, releasing_a_table_keeps_standing,
    undoing_keeps_standing,
};
