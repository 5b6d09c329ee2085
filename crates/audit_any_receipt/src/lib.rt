//! Receipts of any kind: made of an image that is accepted with digests, told by their first bytes, checked with the
//! digests that somebody holds, and what accepted ones show.
#![tactic(auto)]

mod among;
mod any;
mod laws;
mod make;

pub use among::{Answer, check_any, last_block};
pub use any::{AnyReceipt, read_any, write_any};
pub use audit_chain::first_block;
pub use audit_receipt::ReceiptErr;
pub use laws::{
    accepted_receipts_are_never_contradicted, equal_bytes_are_of_equal_receipts_of_any_kind,
};
pub use make::{Wanted, make_any};
