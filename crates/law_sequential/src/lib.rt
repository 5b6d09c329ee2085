//! The course of a server that runs one statement after another, and what it comes to once all its sessions
//! are over: definitions and laws.
#![tactic(auto)]

mod behind;
mod laws;
mod sessions;
mod sessions_behind;

pub use behind::{
    digests_behind_a_past_are_closed_in_later_images, ended_runs_behind_a_past_agree,
    full_blocks_are_closed_behind_a_past, journals_of_runs_behind_a_past_are_legal, runs_begin,
    runs_behind_a_past_begin, runs_behind_a_past_go_on, runs_behind_a_past_reach_their_outcome,
    runs_behind_no_past_agree, sessions_begin_behind_a_past, sessions_end_behind_a_past,
    times_behind_a_past_are_those_of_sessions,
};
pub use law_going_on::{
    agreement_behind_a_past_is_of_any_order, transcripts_agree_behind_the_past,
};
pub use laws::{
    digests_before_an_image_are_closed_in_it, ended_sequential_runs_agree, full_blocks_are_closed,
    journals_of_sequential_runs_are_legal, no_lines_take_no_statement, sequential_runs_begin,
    sequential_runs_go_on, sequential_runs_reach_their_outcome, sessions_begin, sessions_end,
    times_are_those_of_sessions,
};
pub use sessions::{
    ended_sessions_are_a_sequential_run, one_session_goes_on, sessions_go_on, sessions_stand,
};
pub use sessions_behind::{
    ended_sessions_are_a_run_behind_a_past, one_session_goes_on_behind_a_past,
    sessions_go_on_behind_a_past, sessions_stand_behind_a_past,
};
