//! Why no digest is issued.

use base_types::Memory;
use thiserror::Error;

/// Why no digest is issued.
#[derive(Clone, Copy, Debug, PartialEq, Eq, Error)]
pub enum DigestErr {
    /// No transaction was committed, so there is no block.
    #[error("NoBlock")]
    NoBlock,
    /// There is no more memory.
    #[error("Memory")]
    Memory,
}

impl From<Memory> for DigestErr {
    ghost use Rattle.std.specs.Prelude.{◌≡◌};
    ghost use Rattle.store_ledger.specs.declared.digest_err.DigestErr.TheVariants as errors;

    ghost from_gives = { λ _ e. e ≡ errors.Memory };

    fn from(_: Memory) -> DigestErr {
        DigestErr::Memory
    }
}
