//! CREATE TABLE and CREATE INDEX before anything is changed: their checks, and all that takes memory.

ghost use Rattle.std.specs.Prelude.{◌≡◌, ◌≢◌, IfOk, MatchResult, Err};
ghost use Rattle.sql_value.specs.declared.refusal.Refusal.TheVariants.{NoMemory};
ghost use Rattle.spec_model.specs.Create.{create_check, index_check, with_index};
ghost use Rattle.spec_model.specs.Refusals.{MatchesUnlessOom};
ghost use Rattle.store_catalog.specs.Definitions.{AreFormed};
ghost use Rattle.store_catalog.specs.WorkedOut.{IsNewIndex, IsNewTable};

use crate::named_defs::{NamedDefs, PlacedDef};
use crate::rows::{NewRows, new_rows};
use base_shared::Shared;
use base_types::{Memory, TableId, TxId};
use sql_check::{new_index, new_table};
use sql_system::{column_starts, copy_def, index_starts, table_start};
use sql_types::{CreateIndex, CreateTable, IndexDef, TableDef};
use sql_value::Refusal;
use std::alloc::Global;

/// The id of the system's table of tables.
pub(crate) const TABLES: TableId = 1;

/// The id of the system's table of columns.
pub(crate) const COLUMNS: TableId = 2;

/// The definition of a new table, and its rows in the table of tables and in that of columns.
#[derive(Drop)]
pub(crate) struct NewTable {
    pub def: Shared<TableDef>,
    pub first: NewRows,
    pub second: NewRows,
}

/// A definition with a new index, a share in it, and the index's rows in the table of columns.
#[derive(Drop)]
pub(crate) struct NewIndex {
    pub placed: PlacedDef,
    pub answer: Shared<TableDef>,
    pub rows: NewRows,
}

/// The checks of CREATE TABLE, and all that it adds, its events numbered from `seq` on.
pub(crate) fn work_out_table(
    alloc: Global,
    defs: &NamedDefs,
    tx: TxId,
    seq: u64,
    create: &CreateTable,
) -> Result<NewTable, Refusal>
    requires { AreFormed defs.now }
    ensures { MatchResult result (IsNewTable defs.now tx seq create.now)
        (λ e. e ≢ NoMemory → create_check defs.now create.now ≡ Err e) }
{
    let table = new_table(alloc, defs, create)?;
    let def = Shared::new(alloc, table)?;
    let in_tables = table_start(alloc, def.get())?;
    let in_columns = column_starts(alloc, def.get())?;
    let first = new_rows(alloc, TABLES, tx, seq, in_tables)?;
    let second = new_rows(alloc, COLUMNS, tx, seq + 1, in_columns)?;
    Ok(NewTable { def, first, second })
}

// The definition with another index. `drop` lets its type go by a function of its own, which is proved once.
fn add_index(alloc: Global, def: &TableDef, index: IndexDef) -> Result<Shared<TableDef>, Memory>
    ensures { IfOk result (λ now. now ≡ with_index def.now index) }
{
    let mut now = copy_def(alloc, def)?;
    if let Err(Memory) = now.indexes.push(index) {
        drop(now);
        return Err(Memory);
    }
    Shared::new(alloc, now)
}

/// The checks of CREATE INDEX, and all that it adds, its events numbered from `seq` on.
#[tactic(auto, unfolding(spec_model::specs::Create::index_check))]
pub(crate) fn work_out_index(
    alloc: Global,
    defs: &NamedDefs,
    tx: TxId,
    seq: u64,
    create: &CreateIndex,
) -> Result<NewIndex, Refusal>
    requires { AreFormed defs.now }
    ensures { MatchResult result (IsNewIndex defs.now tx seq create.now)
        (λ e. e ≢ NoMemory → index_check defs.now create.now ≡ Err e) }
{
    let Some((def, part)) = defs.find_def(&create.table) else {
        return Err(Refusal::NoSuchTable);
    };
    let index = new_index(alloc, def, part, create)?;
    let starts = index_starts(alloc, def, &index)?;
    let rows = new_rows(alloc, COLUMNS, tx, seq, starts)?;
    let place = def.id as usize - 1;
    let def = add_index(alloc, def, index)?;
    let answer = def.share()?;
    let placed = PlacedDef {
        place,
        def,
        names: None,
    };
    Ok(NewIndex {
        placed,
        answer,
        rows,
    })
}
