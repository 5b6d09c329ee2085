//! What a transaction holds.

ghost use Rattle.std.specs.Prelude.{◌≡◌, ◌==◌, IfOk};
ghost use Rattle.std.specs.List.{list_any};
ghost use Rattle.spec_model.specs.Holds.{hold, holds_any};

use crate::item::copy_of_item;
use base_types::{Memory, TxId};
use sql_types::{Hold, LockRequest};
use std::alloc::Global;

// The transaction's hold of what it wants.
pub(crate) fn hold_of(alloc: Global, tx: TxId, request: &LockRequest) -> Result<Hold, Memory>
    ensures { IfOk result (λ h. h ≡ hold tx request.now) }
{
    let item = copy_of_item(alloc, &request.item)?;
    Ok(Hold {
        tx,
        request: LockRequest {
            item,
            mode: request.mode,
        },
    })
}

/// Whether the transaction has one of these holds.
#[tactic(auto, unfolding(spec_model::specs::Holds::holds_any))]
pub(crate) fn holds_any(holds: &[Hold], tx: TxId) -> bool
    ensures { result ≡ holds_any holds.now tx }
{
    holds.iter().any(|hold| hold.tx == tx)
}

/// Whether the transaction is one of these.
pub(crate) fn is_known(holders: &[TxId], tx: TxId) -> bool
    ensures { result ≡ list_any (λ holder. holder == tx) holders.now }
{
    holders.iter().any(|holder| *holder == tx)
}
