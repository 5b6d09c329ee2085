//! What stands in the vault under the names that a command is given.

ghost use Rattle.std.specs.Prelude.{⊤, ◌≡◌, ◌∷◌, [], IfOk, IfErr, IfSome};
ghost use Rattle.base_io.specs.Count.{Rises};
ghost use Rattle.base_io.specs.History.{Adds};
ghost use Rattle.cli_audit.specs.Answer.{Unfailed};
ghost use Rattle.cli_audit.specs.Names.{IsInVault, LacksName, name_answer};

use crate::Status;
use base_io::{Vault, VaultErr};

/// The most bytes that an image or a journal may have: 256 MiB.
pub(crate) const IMAGE_LIMIT: usize = 268435456;

/// The most bytes that digests may have: 32 MiB, so that those of every run can be read.
pub(crate) const DIGESTS_LIMIT: usize = 33554432;

/// The bytes under a name, which is the one with this number, from 1, among those of the command.
pub(crate) fn read_name<V: Vault>(
    vault: &mut V,
    name: &str,
    which: u8,
    limit: usize,
) -> Result<Vec<u8>, Status>
    ensures is_in_vault { IfOk result
        (λ bytes. IfSome (V.names vault.old) (λ names. IsInVault (names name.now) limit bytes.items)) }
    ensures lacks { IfErr result (λ status. LacksName status which limit (V.names vault.old) name.now) }
    ensures same { V.names vault.new ≡ V.names vault.old }
    ensures answered { Adds (V.history vault.old) (V.history vault.new) (name_answer result ∷ []) }
    ensures calm { IfOk result (λ bytes. V.faults vault.new ≡ V.faults vault.old) }
    ensures unfailed { IfErr result
        (λ status. Unfailed status ⊤ (V.faults vault.new ≡ V.faults vault.old) ⊤) }
    ensures cause { IfErr result
        (λ status. status ≡ Status.VaultFault → Rises (V.faults vault.old) (V.faults vault.new)) }
{
    match vault.get(name, limit) {
        Ok(bytes) => Ok(bytes),
        Err(VaultErr::Memory) => Err(Status::Memory),
        Err(VaultErr::Missing) => Err(Status::Missing { which }),
        Err(VaultErr::TooLong) => Err(Status::Limit),
        Err(VaultErr::Failed) => Err(Status::VaultFault),
    }
}
