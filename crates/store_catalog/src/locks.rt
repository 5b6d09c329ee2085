//! How a transaction is refused that doesn't get its locks.

ghost use Rattle.std.specs.Prelude.{◌≡◌};
ghost use Rattle.store_catalog.specs.Refusals.{or_refusal, refusal_of};

use sql_value::Refusal;
use store_locks::LockErr;

// The refusal that names the holder, or that of want of memory.
fn refusal_of(e: &LockErr) -> Refusal
    ensures { result ≡ refusal_of e.now }
{
    match e {
        LockErr::Locked { holder, .. } => Refusal::Locked { holder: *holder },
        LockErr::Memory => Refusal::NoMemory,
    }
}

/// What a transaction that asks for locks is told.
pub(crate) fn or_refusal(asked: Result<bool, LockErr>) -> Result<bool, Refusal>
    ensures { result ≡ or_refusal asked }
{
    match asked {
        Ok(fresh) => Ok(fresh),
        Err(e) => Err(refusal_of(&e)),
    }
}
