//! The tables of an image as some transactions left them.

ghost use Rattle.std.specs.Prelude.{◌≡◌, ◌++◌, ◌∷◌, [], IfOk, OnOk};
ghost use Rattle.audit_definitions.specs.DefinitionRows.{rows_in};
ghost use Rattle.spec_model.specs.Lists.{is_among};
ghost use Rattle.spec_asof.specs.DatabaseAt as spec;

use crate::definitions::def_told;
use crate::earlier_txs::EarlierTxs;
use crate::versions::{cut_to, versions_at};
use audit_definitions::is_encoded;
use base_types::{Items, Memory};
use sql_system::first_tables;
use sql_types::{Table, TableDef, TableRows, Version};
use std::alloc::Global;

/// The tables that these transactions left, of an image with these definitions and rows. Its rows are moved. The
/// only error is want of memory.
pub(crate) fn tables_at(
    alloc: Global,
    txs: &EarlierTxs,
    defs: Items<TableDef>,
    rows: Items<TableRows>,
) -> Result<Items<Table>, Memory>
    ensures { IfOk result (λ tables. tables ≡ spec.tables_at (is_among txs.now) defs rows) }
{
    let mut rows = rows.into_vec();
    if rows.len() < 2 {
        return Ok(Items::new(alloc));
    }
    let first = rows.remove(0);
    let second = rows.remove(0);
    with_users(alloc, txs, first, second, defs, rows)
}

/// The two tables of the system, and behind them those of users.
#[tactic(auto, unfolding(spec_model::specs::SystemTables::first_tables))]
fn with_users(
    alloc: Global,
    txs: &EarlierTxs,
    first: TableRows,
    second: TableRows,
    defs: Items<TableDef>,
    users: Vec<TableRows>,
) -> Result<Items<Table>, Memory>
    ensures { IfOk result (λ tables. tables
        ≡ spec.tables_at (is_among txs.now) defs (first ∷ second ∷ users.items)) }
{
    let first = versions_at(alloc, txs, first)?;
    let second = versions_at(alloc, txs, second)?;
    let mut users = users_at(alloc, txs, &first, &second, defs, users)?;
    let mut tables = first_tables(alloc)?;
    tables[0].versions = Items::from_vec(first);
    tables[1].versions = Items::from_vec(second);
    tables.append(&mut users)?;
    Ok(Items::from_vec(tables))
}

/// The tables of users that these rows of the system's tables define.
fn users_at(
    alloc: Global,
    txs: &EarlierTxs,
    first: &[Version],
    second: &[Version],
    defs: Items<TableDef>,
    rows: Vec<TableRows>,
) -> Result<Vec<Table>, Memory>
    ensures { IfOk result (λ tables. tables.items
        ≡ spec.users_at (is_among txs.now) (rows_in first.now) (rows_in second.now) defs rows.items) }
{
    let mut tables = Vec::new(alloc);
    for (def, rows) in defs.into_vec().into_iter().zip(rows) {
        add_table(alloc, txs, first, second, def, rows, &mut tables)?;
    }
    Ok(tables)
}

/// Adds the table, if these rows of the system's tables define it.
fn add_table(
    alloc: Global,
    txs: &EarlierTxs,
    first: &[Version],
    second: &[Version],
    def: TableDef,
    rows: TableRows,
    tables: &mut Vec<Table>,
) -> Result<(), Memory>
    ensures { OnOk result (tables.new.items ≡ tables.old.items
        ++ spec.users_at (is_among txs.now) (rows_in first.now) (rows_in second.now) (def ∷ []) (rows ∷ [])) }
{
    let def = def_told(alloc, first, second, def)?;
    if is_encoded(alloc, first, second, &def)? {
        tables.push(table_at(alloc, txs, def, rows)?)?;
    }
    Ok(())
}

fn table_at(
    alloc: Global,
    txs: &EarlierTxs,
    def: TableDef,
    rows: TableRows,
) -> Result<Table, Memory>
    ensures { IfOk result (λ table. table ≡ spec.table_at (is_among txs.now) def rows) }
{
    let versions = versions_at(alloc, txs, rows)?;
    let versions = Items::from_vec(cut_to(alloc, def.columns.len(), versions)?);
    Ok(Table { def, versions })
}
