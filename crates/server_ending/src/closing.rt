//! The end of a run behind which the ledger is closed.

ghost use Rattle.std.specs.Prelude.{◌≡◌, List, IfOk, OnOk};
ghost use Rattle.sql_types.specs.declared.digest.Digest.{Digest as SpecDigest};
ghost use Rattle.store_ledger.specs.HashedCell.{KeepsHash};
ghost use Rattle.server_ending.specs.Closing.{AreServed, ClosesThere, HasLedger, IssuesLast, StillStand, pending_there};

use base_merkle::Hash32;
use base_types::Memory;
use server_engine::Cell;
use server_session::LEDGER;
use std::alloc::Global;
use store_ledger::{DigestErr, LedgerCell};

// Closes the next block of what is pending in the ledger's cell; false where nothing is.
fn close_next<H: Hash32>(alloc: Global, hasher: H, cells: &mut Vec<Cell>) -> Result<bool, Memory>
    requires { HasLedger (H.digest hasher) cells.old.items }
    ensures { IfOk result (λ more. ClosesThere (H.digest hasher) more cells.old.items cells.new.items) }
{
    let ledger = &mut cells[LEDGER];
    let items = ledger.item_count();
    ledger.close_pending(alloc, hasher)?;
    Ok(items < ledger.item_count())
}

/// Closes all that is pending in the ledger's cell, one block after another. For want of memory some of it
/// may be closed.
pub fn close_all<H: Hash32>(alloc: Global, hasher: H, cells: &mut Vec<Cell>) -> Result<(), Memory>
    requires { AreServed (H.digest hasher) cells.old.items }
    ensures stand { OnOk result (StillStand (H.digest hasher) cells.old.items cells.new.items) }
    ensures none { OnOk result (pending_there cells.new.items ≡ 0) }
{
    while close_next(alloc, hasher, cells)? {}
    Ok(())
}

/// Issues the digest of the newest block, as made at this moment, where there is a transaction of which it
/// can be.
pub(crate) fn issue_last<H: Hash32>(
    alloc: Global,
    hasher: H,
    ledger: &mut LedgerCell,
    made: u64,
) -> Result<(), Memory>
    requires { KeepsHash (H.digest hasher) ledger.old }
    ensures { OnOk result ((more : List SpecDigest)
        × IssuesLast (H.digest hasher) made ledger.old.cell more ledger.new.cell) }
{
    match ledger.digest(alloc, hasher, made) {
        Ok(_) => Ok(()),
        Err(DigestErr::NoBlock) => Ok(()),
        Err(DigestErr::Memory) => Err(Memory),
    }
}
