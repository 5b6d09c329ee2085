//! Worked examples of the meaning of statements, scripts and journals.
#![tactic(auto)]

mod samples;

pub use samples::{
    definitions_are_changed, events_are_numbered, journals_are_legal, keys_are_fixed,
    keys_are_locked, parts_are_locked, refusals_have_an_order, rows_are_selected,
    scripts_are_answered, statements_are_answered,
};
