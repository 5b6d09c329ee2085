//! INSERT, UPDATE and DELETE: all rows are changed, or none.

ghost use Rattle.std.specs.Prelude.{◌≡◌, ◌≢◌, ◌≤◌, ◌⊎◌, ◌∷◌, [], Err, IfErr, IfOk, OnErr, OnOk, Ok, length};
ghost use Rattle.sql_value.specs.declared.refusal.Refusal.TheVariants.{NoMemory};
ghost use Rattle.spec_history.specs.Lists.{Each};
ghost use Rattle.law_journal.specs.Fits.{FitsSoFar};
ghost use Rattle.spec_model.specs.Changes.{row_changes};
ghost use Rattle.spec_model.specs.Checks.{row_statement_check};
ghost use Rattle.spec_model.specs.Keys.{key_places};
ghost use Rattle.spec_model.specs.Limits.{max_columns};
ghost use Rattle.spec_protocol.specs.Seats.{OpenTransaction};
ghost use Rattle.store_tx.specs.Represents.{IsOpen, Represents};
ghost use Rattle.store_table.specs.Calls.{MayChange, RowsWritten};
ghost use Rattle.store_table.specs.Stored.{with_versions};

use crate::noting::note_all;
use crate::version_store::VersionStore;
use crate::working::work_out;
use base_merkle::Hash32;
use base_types::Memory;
use sql_parts::KeyedTable;
use sql_types::RowStmt;
use sql_value::Refusal;
use std::alloc::Global;
use store_tx::TxCtx;

/// Works out what the statement is to do, makes all the room that it takes, and only then does it; the answer
/// is the number of rows that it replies. After a refusal the versions are as they were, and the context is of
/// the same transaction as before.
pub(crate) fn change_rows<H: Hash32>(
    alloc: Global,
    store: &mut VersionStore,
    ctx: &mut TxCtx<H>,
    table: &KeyedTable,
    stmt: &RowStmt,
) -> Result<u64, Refusal>
    requires key { (store.old.stored.versions ≡ []) ⊎ (store.old.stored.key ≡ key_places table.now.columns) }
    requires few { length table.now.columns ≤ max_columns }
    requires fit { Each (λ v. FitsSoFar table.now.columns v.values) store.old.stored.versions }
    requires passes { row_statement_check (table.now ∷ []) stmt.now ≡ Ok table.now }
    requires before { MayChange H.digest ctx.old store.old.stored.versions }
    ensures ok { IfOk result (λ count.
        RowsWritten H.digest store.old.stored ctx.old table.now stmt.now count store.new.stored ctx.new) }
    ensures refused { IfErr result (λ e. e ≢ NoMemory
        → row_changes table.now store.old.stored.versions stmt.now ≡ Err e) }
    ensures err { OnErr result (store.new.stored ≡ store.old.stored) }
    ensures context { OnErr result ((h : H) (o : OpenTransaction) → Represents H.digest h ctx.old o
        → Represents H.digest h ctx.new o) }
{
    store.versions_rise();
    let tx = ctx.id();
    let seq = ctx.seq();
    let worked = work_out(alloc, store, tx, seq, table, stmt)?;
    make_room(alloc, store, ctx, table, worked.changes.len())?;
    store.carry_out(tx, seq, worked.changes);
    note_all(ctx, table.def().id, &worked.leaves);
    Ok(worked.count)
}

// Makes room for so many starts, opens the tree of the table, and sets the key. After want of memory the
// versions are as they were.
fn make_room<H: Hash32>(
    alloc: Global,
    store: &mut VersionStore,
    ctx: &mut TxCtx<H>,
    table: &KeyedTable,
    count: usize,
) -> Result<(), Memory>
    requires { (store.old.stored.versions ≡ []) ⊎ (store.old.stored.key ≡ key_places table.now.columns) }
    ensures stored { OnOk result (store.new.stored
        ≡ with_versions (key_places table.now.columns) store.old.stored.versions store.old.stored) }
    ensures room { OnOk result (store.new.room ≡ count) }
    ensures open { OnOk result (IsOpen table.now.id ctx.new) }
    ensures err { OnErr result (store.new.stored ≡ store.old.stored) }
    ensures context { (h : H) (o : OpenTransaction) → Represents H.digest h ctx.old o
        → Represents H.digest h ctx.new o }
{
    store.reserve(count)?;
    ctx.open_tree(table.def().id)?;
    store.set_key(alloc, table.columns())
}
