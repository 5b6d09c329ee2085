//! Receipts: one transaction shown under a digest without the image, checked and made, and two of one place
//! settled.
#![tactic(auto)]

mod check;
mod leaves;
mod make;
mod receipt_err;
mod settled;
mod settling;

pub use check::{check_receipt, leads_to};
pub use format_receipt::Receipt;
pub use make::{make_receipt, records_from};
pub use receipt_err::ReceiptErr;
pub use settled::Settled;
pub use settling::settle;
