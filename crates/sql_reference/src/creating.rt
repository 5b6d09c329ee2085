//! CREATE TABLE and CREATE INDEX.

ghost use Rattle.std.specs.Prelude.{◌≡◌, ◌≢◌, ◌<◌, ◌+◌, ◌-◌, ◌^◌, if◌then◌else◌, ◌==◌, IfOk, OnOk, MatchResult, Ok, Err, map, length};
ghost use Rattle.std.specs.List.{AllByRecursion};
ghost use Rattle.sql_value.specs.declared.refusal.Refusal.TheVariants.{NoMemory};
ghost use Rattle.sql_types.specs.declared.table.TableDef.{TableDef};
ghost use Rattle.spec_model.specs.Agreement.{IdsFrom};
ghost use Rattle.spec_model.specs.Catalog.{defs_of};
ghost use Rattle.spec_model.specs.Create.{create_check, index_check, with_index};
ghost use Rattle.spec_model.specs.Effect as spec;
ghost use Rattle.spec_model.specs.Refusals.{MatchesUnlessOom};
ghost use Rattle.spec_model.specs.Runs.{Sound};
ghost use Rattle.sql_reference.specs.StatementResult.{MatchesEffectUnlessOom, IsReady};

use crate::catalog::{DefsOf, find};
use crate::effect::{StatementResult, counted};
use base_types::{Items, Memory, TableId, TxId};
use sql_apply::change_table;
use sql_check::{new_index, new_table};
use sql_system::{column_starts, index_starts, table_start};
use sql_types::{Change, CreateIndex, CreateTable, IndexDef, Reply, Table, TableDef};
use sql_value::Refusal;
use std::alloc::Global;

/// The id of the system's table of tables.
pub(crate) const TABLES: TableId = 1;

/// The id of the system's table of columns.
pub(crate) const COLUMNS: TableId = 2;

/// A new index of the table with this id, and the starts of its rows in the table of columns.
#[derive(Drop)]
struct NewIndex {
    id: TableId,
    index: IndexDef,
    starts: Items<Change>,
}

/// Adds rows to the table of tables and, with the numbers behind theirs, to the table of columns. Gives the
/// number of the next event.
pub(crate) fn add_system_rows(
    alloc: Global,
    tables: &mut Vec<Table>,
    tx: TxId,
    seq: u64,
    first: Items<Change>,
    second: Items<Change>,
) -> Result<u64, Memory>
    requires { Sound tx seq tables.old.items }
    ensures tables { OnOk result (tables.new.items
        ≡ spec.with_system_rows tx seq first second tables.old.items) }
    ensures next { IfOk result (λ next. next ≡ seq + length first + length second) }
{
    let between = counted(seq, first.len())?;
    let next = counted(between, second.len())?;
    change_table(alloc, tables, TABLES, tx, seq, first)?;
    change_table(alloc, tables, COLUMNS, tx, between, second)?;
    Ok(next)
}

/// Checks CREATE TABLE and makes the definition; nothing is changed.
fn work_out_table(alloc: Global, tables: &[Table], c: &CreateTable) -> Result<TableDef, Refusal>
    requires { length (defs_of tables.now) < 2 ^ 32 - 1 }
    ensures { MatchesUnlessOom (create_check (defs_of tables.now) c.now) result }
{
    new_table(alloc, &DefsOf { tables }, c)
}

/// CREATE TABLE: the rows of the system tables, and then the new table, without versions.
pub(crate) fn create_table(
    alloc: Global,
    tables: &mut Vec<Table>,
    tx: TxId,
    seq: u64,
    c: &CreateTable,
) -> Result<StatementResult, Refusal>
    requires { IsReady tx seq tables.old.items }
    ensures { MatchesEffectUnlessOom (spec.table_effect tables.old.items tx seq (create_check (defs_of tables.old.items) c.now))
        tables.old.items tables.new.items seq result }
{
    let def = work_out_table(alloc, tables, c)?;
    let (first, second) = (table_start(alloc, &def)?, column_starts(alloc, &def)?);
    let next = add_system_rows(alloc, tables, tx, seq, first, second)?;
    tables.push(Table {
        def,
        versions: Items::new(alloc),
    })?;
    Ok(StatementResult {
        seq: next,
        reply: Reply::Made,
    })
}

/// Checks CREATE INDEX and works out what it adds; nothing is changed.
#[tactic(auto, unfolding(spec_model::specs::Create::index_check))]
fn work_out_index(alloc: Global, tables: &[Table], c: &CreateIndex) -> Result<NewIndex, Refusal>
    requires { AllByRecursion (λ def. length def.columns < 2 ^ 16 - 1) (defs_of tables.now) }
    ensures { MatchResult result (λ new. (def : TableDef)
        × (index_check (defs_of tables.now) c.now ≡ Ok (def, new.index))
        × (new.id ≡ def.id) × (new.starts ≡ spec.index_starts def new.index))
        (λ e. e ≢ NoMemory → index_check (defs_of tables.now) c.now ≡ Err e) }
{
    let Some((table, part)) = find(tables, &c.table) else {
        return Err(Refusal::NoSuchTable);
    };
    let index = new_index(alloc, &table.def, part, c)?;
    let starts = index_starts(alloc, &table.def, &index)?;
    Ok(NewIndex {
        id: table.def.id,
        index,
        starts,
    })
}

fn push_index(table: &mut Table, index: IndexDef) -> Result<(), Memory>
    ensures { OnOk result (table.new ≡ spec.with_def (with_index table.old.def index) table.old) }
{
    table.def.indexes.push(index)
}

/// Adds an index to the definition of the table with this id. Where no table has it nothing is changed.
fn add_index(tables: &mut Vec<Table>, id: TableId, index: IndexDef) -> Result<(), Memory>
    requires { IdsFrom 1 (defs_of tables.old.items) }
    ensures { OnOk result (tables.new.items
        ≡ map (λ t.
        if t.def.id == id then spec.with_def (with_index t.def index) t else t) tables.old.items) }
{
    // the first table has the id 1, the next 2, and so on
    let id = id as usize;
    if id == 0 || tables.len() < id {
        return Ok(());
    }
    push_index(&mut tables[id - 1], index)
}

/// CREATE INDEX: the rows of the second system table, and then the new definition.
pub(crate) fn create_index(
    alloc: Global,
    tables: &mut Vec<Table>,
    tx: TxId,
    seq: u64,
    c: &CreateIndex,
) -> Result<StatementResult, Refusal>
    requires { IsReady tx seq tables.old.items }
    ensures { MatchesEffectUnlessOom (spec.index_effect tables.old.items tx seq (index_check (defs_of tables.old.items) c.now))
        tables.old.items tables.new.items seq result }
{
    let NewIndex { id, index, starts } = work_out_index(alloc, tables, c)?;
    let next = add_system_rows(alloc, tables, tx, seq, Items::new(alloc), starts)?;
    add_index(tables, id, index)?;
    Ok(StatementResult {
        seq: next,
        reply: Reply::Made,
    })
}
