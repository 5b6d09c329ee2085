//! The cells with which a database goes on that has a journal, and the law that they stand together with an idle
//! seat.
#![tactic(auto)]

mod laws;

pub use laws::{
    a_journal_that_goes_on_keeps_its_forms, a_legal_journal_goes_on, a_server_starts,
    there_are_words,
};
