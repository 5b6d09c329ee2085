//! Visits of the ledger's cell, in which ids are drawn, ends of transactions are fixed and digests are issued.
#![tactic(auto)]

mod ledger_assign;
mod ledger_commit;
mod ledger_end;
mod ledger_issue;
mod ledger_work;
mod visits;

pub use store_ledger::LedgerCell;
pub use visits::visit_ledger;
