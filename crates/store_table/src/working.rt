//! What a statement that changes rows is to do, worked out before anything is done.

ghost use Rattle.std.specs.Prelude.{◌≡◌, ◌≢◌, ◌≤◌, ◌⊎◌, ◌∷◌, [], IfErr, IfOk, Err, Ok, length};
ghost use Rattle.sql_value.specs.declared.refusal.Refusal.TheVariants.{NoMemory};
ghost use Rattle.spec_history.specs.Lists.{Each};
ghost use Rattle.law_journal.specs.Fits.{FitsSoFar};
ghost use Rattle.spec_model.specs.Changes as spec;
ghost use Rattle.spec_model.specs.Checks.{row_statement_check};
ghost use Rattle.spec_model.specs.Keys as keys;
ghost use Rattle.spec_model.specs.Limits.{max_columns};
ghost use Rattle.store_table.specs.Made.{IsWorkedOut};

use crate::leaves::leaves_of;
use crate::version_store::VersionStore;
use base_types::{Blob, Items, TxId};
use sql_change::row_changes_of;
use sql_parts::KeyedTable;
use sql_types::{Change, RowStmt};
use sql_value::Refusal;
use std::alloc::Global;

/// The numbers of a transaction's events are below this one, so that a tree has room for each.
const MOST_EVENTS: u64 = 1 << 63;

/// The changes of a statement, the leaves of their events, and the number of rows that it replies.
#[derive(Drop)]
pub struct StatementChanges {
    pub changes: Items<Change>,
    pub leaves: Vec<Blob>,
    pub count: u64,
}

/// What the statement is to do, as the events of the transaction that have the numbers from `seq` on; or why
/// it is refused. NoMemory for want of memory, or where the numbers have no room.
#[tactic(auto, using(crate::proofs::Written::worked_out, crate::proofs::Written::all_made))]
pub(crate) fn work_out(
    alloc: Global,
    store: &VersionStore,
    tx: TxId,
    seq: u64,
    table: &KeyedTable,
    stmt: &RowStmt,
) -> Result<StatementChanges, Refusal>
    requires key { (store.now.stored.versions ≡ []) ⊎ (store.now.stored.key ≡ keys.key_places table.now.columns) }
    requires few { length table.now.columns ≤ max_columns }
    requires fit { Each (λ v. FitsSoFar table.now.columns v.values) store.now.stored.versions }
    requires passes { row_statement_check (table.now ∷ []) stmt.now ≡ Ok table.now }
    ensures ok { IfOk result (λ worked. IsWorkedOut table.now store.now.stored.versions stmt.now tx seq
        worked.changes worked.count worked.leaves.items) }
    ensures err { IfErr result (λ e. e ≢ NoMemory
        → spec.row_changes table.now store.now.stored.versions stmt.now ≡ Err e) }
{
    store.versions_rise();
    let (changes, count) = row_changes_of(alloc, table, store, stmt)?;
    if changes.len() as u64 >= MOST_EVENTS.saturating_sub(seq) {
        return Err(Refusal::NoMemory);
    }
    let table = table.def().id;
    let leaves = store.leaves_of(alloc, table, tx, seq, changes.as_slice())?;
    Ok(StatementChanges {
        changes,
        leaves,
        count,
    })
}
