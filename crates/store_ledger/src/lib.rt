//! The ledger's cell: the journal with what is made of it, which are entries, blocks and digests.
#![tactic(auto)]

mod cell;
mod commit_err;
mod digest_err;
mod going_on;
mod laws;

pub use cell::{IssuedDigest, LedgerCell};
pub use commit_err::CommitErr;
pub use digest_err::DigestErr;
pub use laws::{
    closings_are_visits_one_by_one, closings_keep_the_ledger_legal,
    issued_digests_are_of_the_journal, issuing_is_a_visit,
};
