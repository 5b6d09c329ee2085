//! What is kept outside under names.

ghost use Rattle.std.specs.Prelude.{◌≡◌, ◌≤◌, ◌∷◌, [], ℕ, List, Option, Result, Err, IfOk, vec_len};
ghost use Rattle.base_io.specs.declared.vault.VaultErr.{VaultErr};
ghost use Rattle.base_io.specs.History.{Adds};
ghost use Rattle.base_io.specs.Outside.{TellsGet, TellsPut, CountsFault, outcome};
ghost use Rattle.base_io.specs.Store.{NameContent};

use base_types::Memory;
use thiserror::Error;

/// Why a vault gives or keeps nothing.
#[derive(Clone, Copy, Debug, PartialEq, Eq, Error)]
pub enum VaultErr {
    /// There is no more memory. Nothing changed.
    #[error("Memory")]
    Memory,

    /// Nothing stands under the name.
    #[error("Missing")]
    Missing,

    /// What stands under the name has more bytes than the limit.
    #[error("TooLong")]
    TooLong,

    /// The vault failed. It is answered only where the count of faults rose.
    #[error("Failed")]
    Failed,
}

impl From<Memory> for VaultErr {
    ghost use Rattle.std.specs.Prelude.{◌≡◌};
    ghost use Rattle.base_io.specs.declared.vault.VaultErr.TheVariants as errors;

    ghost from_gives = { λ _ e. e ≡ errors.Memory };

    fn from(_: Memory) -> VaultErr {
        VaultErr::Memory
    }
}

/// Byte strings under names. A call counts a fault where it answers `Failed`, and with no other answer.
pub trait Vault {
    /// What stands under each name, where the vault tells it. One that tells it goes on telling.
    ghost names: { Self → Option (List ℕ → NameContent) };

    /// What its calls so far may have answered, in their order: of a `get` only whether it gave something.
    ghost history: { Self → List (Result (Unit {0}) VaultErr) → Type 0 };

    /// How often the vault has failed. At the end of its type the count stands still.
    ghost faults: { Self → ℕ };

    /// The bytes under a name, if they are at most `limit`. No name changes. Under an open name it gives any
    /// bytes of at most `limit`, or an error other than `Missing` and `TooLong`.
    fn get(&mut self, name: &str, limit: usize) -> Result<Vec<u8>, VaultErr>
        ensures gives { TellsGet (names self.old) name.now limit result }
        ensures within { IfOk result (λ bytes. vec_len bytes ≤ limit) }
        ensures same { names self.new ≡ names self.old }
        ensures answered { Adds (history self.old) (history self.new) (outcome result ∷ []) }
        ensures later { faults self.old ≤ faults self.new }
        ensures counts { CountsFault result (faults self.old) (faults self.new) };

    /// Puts these bytes under a name, in the place of what was there. After `Failed` the name is open, and
    /// after `Memory` it is as before. It never answers `Missing` or `TooLong`, and no other name changes.
    fn put(&mut self, name: &str, bytes: &[u8]) -> Result<(), VaultErr>
        ensures puts { TellsPut (names self.old) (names self.new) result name.now bytes.now }
        ensures known { (result ≡ Err VaultErr.Missing → ⊥) × (result ≡ Err VaultErr.TooLong → ⊥) }
        ensures answered { Adds (history self.old) (history self.new) (result ∷ []) }
        ensures later { faults self.old ≤ faults self.new }
        ensures counts { CountsFault result (faults self.old) (faults self.new) };
}
