//! Why a statement does nothing in a table's cell.

ghost use Rattle.std.specs.Prelude.{◌≡◌};
ghost use Rattle.store_table.specs.Stopping.{granted_or_err, table_err_of};
ghost use Rattle.store_table.specs.declared.stop.TableErr.TheVariants.{Memory};

use base_types::TxId;
use sql_value::Refusal;
use store_locks::LockErr;

/// Why no row is changed, or none is shown.
#[derive(Debug, Drop)]
pub enum TableErr {
    /// The rows refuse the statement. Its locks stay.
    Refused(Refusal),
    /// A lock of this transaction is in the way. No lock is taken.
    Locked { holder: TxId },
    /// There is no more memory. No lock is taken.
    Memory,
}

impl From<base_types::Memory> for TableErr {
    ghost from_gives = { λ _ e. e ≡ Memory };

    fn from(_: base_types::Memory) -> TableErr {
        TableErr::Memory
    }
}

// How a transaction is stopped that doesn't get its locks.
fn table_err_of(e: &LockErr) -> TableErr
    ensures { result ≡ table_err_of e.now }
{
    match e {
        LockErr::Locked { holder, .. } => TableErr::Locked { holder: *holder },
        LockErr::Memory => TableErr::Memory,
    }
}

/// What stops a transaction that asks for locks, if something does.
pub(crate) fn granted_or_err(asked: Result<bool, LockErr>) -> Result<(), TableErr>
    ensures { result ≡ granted_or_err asked }
{
    match asked {
        Ok(_) => Ok(()),
        Err(e) => Err(table_err_of(&e)),
    }
}
