//! What holds of histories that go on from a journal: agreement, step order and one order behind a past. And that
//! sessions which are over can be forgotten.
#![tactic(auto)]

mod laws;

pub use laws::{
    histories_behind_a_past_agree, histories_behind_a_past_are_in_one_order,
    histories_behind_a_past_keep_step_order, sessions_that_are_over_can_be_forgotten,
    what_is_left_goes_as_it_went, without_a_past_nothing_else_is_meant,
};
