//! The entries and blocks of a database, as its transactions are committed and its blocks closed.
#![tactic(auto)]

mod ledger_chain;
mod placing;

pub use ledger_chain::LedgerChain;
