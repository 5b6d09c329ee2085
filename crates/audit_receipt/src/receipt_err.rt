//! Why no receipt is made.

use base_types::Memory;
use thiserror::Error;

/// Why no receipt is made.
#[derive(Clone, Copy, Debug, PartialEq, Eq, Error)]
pub enum ReceiptErr {
    /// No entry up to the block is of the transaction.
    #[error("NoEntry")]
    NoEntry,
    /// There is no more memory.
    #[error("Memory")]
    Memory,
}

impl From<Memory> for ReceiptErr {
    ghost use Rattle.std.specs.Prelude.{◌≡◌};
    ghost use Rattle.audit_receipt.specs.declared.receipt_err.ReceiptErr.TheVariants as errors;

    ghost from_gives = { λ _ e. e ≡ errors.Memory };

    fn from(_: Memory) -> ReceiptErr {
        ReceiptErr::Memory
    }
}
