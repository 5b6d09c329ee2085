//! Each legal journal is that of a history, which is told from its items alone; and what comes behind it may happen
//! without the sessions that are over then.
#![tactic(auto)]

mod laws;

pub use laws::{
    legal_journals_are_those_of_histories, what_follows_a_retold_history_follows_its_journal,
};
