//! What a Yes says of the tables of an image, whatever made it.
#![tactic(auto)]

mod laws;

pub use laws::{
    keys_and_types_never_change, nothing_ended_in_an_append_only_table,
    nothing_starts_or_ends_after_a_drop,
};
