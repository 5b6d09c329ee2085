//! Laws of statements and scripts: what they read and what they leave alone, what agreeing
//! states give, undo, and rows that are shorter than their columns.
#![tactic(auto)]

mod agreement;
mod catalog;
mod journals;
mod rows;
mod runs;
mod scripts;
mod undo;

pub use agreement::{
    agreeing_states_give_one_change_set, effects_are_change_sets_carried_out,
    statements_leave_what_they_dont_request, versions_are_those_of_their_keys,
};
pub use catalog::{
    altered_definitions_keep_keys_and_columns, cell_requests_share_the_catalog,
    conflicting_requests_clash, creates_alone_change_definitions,
    creates_request_the_catalog_alone, explicit_scripts_leave_definitions, no_texts_do_nothing,
};
pub use journals::legal_journals_keep_the_rules;
pub use rows::{filled_rows_say_the_same, rows_are_filled};
pub use runs::{
    explicit_scripts_keep_tables_sound, legal_journals_lead_to_sound_tables,
    scripts_keep_tables_sound_for_others, statements_keep_tables_sound,
    transactions_begin_without_events,
};
pub use scripts::{
    explicit_scripts_are_their_changes, explicit_scripts_over_agreeing_states_are_one,
    opened_scripts_leave_what_they_dont_request, statements_alone_over_agreeing_states_are_one,
    what_doesnt_clash_leaves_what_is_requested,
};
pub use undo::{going_back_is_undo_by_number, undo_by_number_takes_a_statement_back};
