//! What holds at the end of a run that goes on from a journal.
#![tactic(auto)]

mod laws;

pub use law_continued::{a_journal_that_goes_on_keeps_its_forms, a_server_starts};
pub use laws::{agreement_behind_a_past_is_of_any_order, transcripts_agree_behind_the_past};
