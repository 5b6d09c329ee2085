//! Digests joined by a chain of records: that the newest one continues the histories of the others.
#![tactic(auto)]

mod check;
mod digests;
mod joining;
mod laws;

pub use check::check_chain;
pub use digests::{first_block, leads_on, least_unjoined_of};
pub use format_chain::Chain;
pub use joining::join;
pub use laws::{
    accepted_chains_tell_one_history, made_chains_continue, made_chains_join,
    newest_digests_tell_all_histories,
};
