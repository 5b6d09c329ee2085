//! Why locks aren't given.

ghost use Rattle.std.specs.Prelude.{◌≡◌};
ghost use Rattle.store_locks.specs.declared.lock_err.LockErr.TheVariants.{Memory};

use base_types::TxId;
use sql_types::{Item, Mode};

/// Why the wants of a transaction aren't taken.
#[derive(Debug, Drop)]
pub enum LockErr {
    /// Another transaction holds `item` in a mode that conflicts.
    Locked {
        holder: TxId,
        item: Item,
        mode: Mode,
    },
    /// There is no more memory.
    Memory,
}

impl From<base_types::Memory> for LockErr {
    ghost from_gives = { λ _ e. e ≡ Memory };

    fn from(_: base_types::Memory) -> LockErr {
        LockErr::Memory
    }
}
