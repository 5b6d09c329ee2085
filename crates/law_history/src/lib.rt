//! Laws of histories: transcripts of a good history agree with the journal to which it leads.
#![tactic(auto)]

mod laws;

pub use laws::{
    a_history_is_good, histories_agree, histories_agree_so_far, histories_keep_step_order,
    legality_is_one_for_all_meanings, the_journal_has_the_names_of_its_sessions,
    where_locks_decide_step_order_is_whole,
};
