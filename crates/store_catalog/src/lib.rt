//! The catalog's cell: the definitions of all tables, the rows that the system tables have of them, and its
//! locks.
#![tactic(auto)]

mod altering;
mod cell;
mod creating;
mod definitions;
mod going_on;
mod laws;
mod locks;
mod named_defs;
mod noting;
mod reading;
mod rows;
mod starting;

pub use cell::CatalogCell;
pub use laws::{
    altering_a_table_is_a_visit, creating_a_table_is_a_visit, creating_an_index_is_a_visit,
    looking_up_is_a_visit, reading_is_a_visit, refusing_a_create_is_a_visit,
    releases_undo_unless_committed, stopping_is_a_visit,
};
