//! The tables that a journal committed, of what lies in cells.

ghost use Rattle.std.specs.Prelude.{◌≡◌, IfOk};
ghost use Rattle.std.specs.List.{AllByRecursion};
ghost use Rattle.format_image_rows.specs.Room.{TableFitsFormat};
ghost use Rattle.store_image.specs.Known.{has_in};
ghost use Rattle.store_image.specs.Leads.{is_uncommitted};
ghost use Rattle.law_server.specs.CellsImage.{committed_tables, defs_before, tables_in_cells};

use crate::ids::CommittedTxs;
use crate::shown::ShownCells;
use crate::versions::committed_versions;
use base_types::{Memory, TxId};
use format_image_rows::tables_have_room;
use sql_types::{Table, TableDef};
use std::alloc::Global;
use store_ledger::LedgerCell;

/// The tables of committed transactions, by the journal in the ledger's cell, with room in an image. Copies
/// their definitions and versions; takes the time of sorting the journal's ids, and an ordered search for
/// each start and end.
#[tactic(auto, using(crate::proofs::Known::same_known))]
pub(crate) fn tables_in_cells<C: ShownCells>(
    alloc: Global,
    ledger: &LedgerCell,
    cells: &C,
) -> Result<Vec<Table>, Memory>
    ensures tables { IfOk result (λ tables. tables.items
        ≡ tables_in_cells (C.cells cells.now) (C.catalog cells.now) ledger.now.cell) }
    ensures room { IfOk result (λ tables. AllByRecursion TableFitsFormat tables.items) }
{
    let known = CommittedTxs::of(alloc, ledger.items())?;
    let defs = committed_defs(alloc, cells, &known)?;
    let tables = with_versions(alloc, defs, cells, &known)?;
    tables_have_room(&tables);
    Ok(tables)
}

/// The definitions of committed transactions: where another one changed them, those before it.
#[tactic(auto, using(crate::proofs::Known::kept_defs, crate::proofs::Known::earlier_defs))]
fn committed_defs<C: ShownCells>(
    alloc: Global,
    cells: &C,
    known: &CommittedTxs,
) -> Result<Vec<TableDef>, Memory>
    ensures { IfOk result (λ defs. defs.items
        ≡ defs_before (has_in known.now) (C.catalog cells.now).defs (C.catalog cells.now).creator) }
{
    if is_uncommitted(cells.creator(), known) {
        cells.copy_defs_before(alloc)
    } else {
        cells.copy_defs(alloc)
    }
}

/// Whether there is a transaction that isn't committed.
fn is_uncommitted(creator: Option<TxId>, known: &CommittedTxs) -> bool
    ensures { result ≡ is_uncommitted (has_in known.now) creator }
{
    match creator {
        Some(tx) => !known.has(tx),
        None => false,
    }
}

/// The tables with these definitions, with the starts and ends of committed transactions alone.
fn with_versions<C: ShownCells>(
    alloc: Global,
    defs: Vec<TableDef>,
    cells: &C,
    known: &CommittedTxs,
) -> Result<Vec<Table>, Memory>
    ensures { IfOk result (λ tables. tables.items
        ≡ committed_tables (has_in known.now) (C.cells cells.now) defs.items) }
{
    let mut tables = Vec::with_capacity(alloc, defs.len())?;
    for def in defs {
        let versions = committed_versions(alloc, known, cells.versions(def.id))?;
        tables.push(Table { def, versions })?;
    }
    Ok(tables)
}
