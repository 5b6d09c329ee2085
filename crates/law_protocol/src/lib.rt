//! Whatever happens keeps cells and seats standing together, and what that comes to once no session runs.
#![tactic(auto)]

mod board;
mod laws;

pub use board::cells_and_seats_are_a_world;
pub use laws::{
    agreement_is_of_any_order, all_steps_keep_standing, anonymous_acts_tell_ends_and_closings,
    conflicting_locks_are_not_held, first_cells_stand, kept_images_are_those_that_transcripts_show,
    locks_that_decide_keep_step_order, one_statement_after_another_keeps_step_order,
    one_step_keeps_standing, the_journal_has_its_sessions_names, the_journal_keeps_its_forms,
    transcripts_agree_at_the_end, transcripts_agree_in_a_session_order, transcripts_agree_so_far,
    transcripts_are_in_the_order_of_their_beginnings, what_a_seat_does_its_sessions_do,
    what_a_seat_may_do_keeps_standing, what_seats_knew_tells_setup, whatever_happens_agrees,
};
