//! Why no digests are read.

use base_types::Memory;
use thiserror::Error;

/// Why no digests are read.
#[derive(Clone, Copy, Debug, PartialEq, Eq, Error)]
pub enum DigestErr {
    /// The bytes are no JSON value.
    #[error("Unreadable")]
    Unreadable,
    /// The item at this place, counted from 0, is the first that isn't a digest.
    #[error("Bad")]
    Bad { index: u64 },
    /// There is no more memory.
    #[error("Memory")]
    Memory,
}

impl From<Memory> for DigestErr {
    ghost use Rattle.std.specs.Prelude.{◌≡◌};
    ghost use Rattle.format_digest.specs.declared.digest_err.DigestErr.TheVariants as errors;

    ghost from_gives = { λ _ e. e ≡ errors.Memory };

    fn from(_: Memory) -> DigestErr {
        DigestErr::Memory
    }
}
