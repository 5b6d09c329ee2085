//! The cells with which a database goes on from a journal.
#![tactic(auto)]

mod laws;

pub use laws::no_journal_leads_to_the_first_cells;
