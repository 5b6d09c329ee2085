//! ALTER TABLE and DROP TABLE before anything is changed: their checks, and all that takes memory.

ghost use Rattle.std.specs.Prelude.{◌≡◌, ◌≢◌, MatchResult, Err};
ghost use Rattle.sql_value.specs.declared.refusal.Refusal.TheVariants.{NoMemory};
ghost use Rattle.spec_model.specs.Alter.{alter_check, alteration, drop_check, table_drop};
ghost use Rattle.spec_model.specs.Refusals.{MatchesUnlessOom};
ghost use Rattle.store_catalog.specs.Definitions.{AreFormed};
ghost use Rattle.store_catalog.specs.WorkedOut.{IsAlteredTable, IsDroppedTable};

use crate::creating::{COLUMNS, TABLES};
use crate::named_defs::{NamedDefs, PlacedDef};
use crate::rows::{NewRows, new_rows};
use base_shared::Shared;
use base_types::{Name, TxId};
use sql_check::{WithColumn, altered_name, altered_table, dropped_table};
use sql_system::{changed_column_start, changed_table_start, next_change};
use sql_types::{Alter, TableDef, Version};
use sql_value::Refusal;
use std::alloc::Global;

/// A definition for the place of its table's, and the row that says so, which is in the table of columns after ALTER
/// TABLE and in that of tables after DROP TABLE.
#[derive(Drop)]
pub(crate) struct AlteredTable {
    pub placed: PlacedDef,
    pub rows: NewRows,
}

/// The checks of ALTER TABLE, and the definition that it makes.
#[tactic(auto, using(sql_check::proofs::Alterations::altered_is))]
fn check_alter(alloc: Global, defs: &NamedDefs, alter: &Alter) -> Result<WithColumn, Refusal>
    requires { AreFormed defs.now }
    ensures { MatchesUnlessOom (alter_check defs.now alter.now) result }
{
    let Some((def, part)) = defs.find_def(altered_name(alter)) else {
        return Err(Refusal::NoSuchTable);
    };
    altered_table(alloc, def, part, alter)
}

/// The checks of DROP TABLE, and the definition that it makes.
#[tactic(auto, unfolding(spec_model::specs::Alter::drop_check))]
fn check_drop(alloc: Global, defs: &NamedDefs, name: &Name) -> Result<TableDef, Refusal>
    ensures { MatchesUnlessOom (drop_check defs.now name.now) result }
{
    let Some((def, part)) = defs.find_def(name) else {
        return Err(Refusal::NoSuchTable);
    };
    dropped_table(alloc, defs, def, part)
}

/// The checks of ALTER TABLE, and all that it changes where the tables of the system have these versions, its event
/// numbered `seq`.
pub(crate) fn work_out_alter(
    alloc: Global,
    defs: &NamedDefs,
    tables: &[Version],
    columns: &[Version],
    tx: TxId,
    seq: u64,
    alter: &Alter,
) -> Result<AlteredTable, Refusal>
    requires { AreFormed defs.now }
    ensures { MatchResult result
        (IsAlteredTable defs.now (alteration defs.now tables.now columns.now alter.now) tx seq)
        (λ e. e ≢ NoMemory → alteration defs.now tables.now columns.now alter.now ≡ Err e) }
{
    let (altered, (ordinal, column)) = check_alter(alloc, defs, alter)?;
    let id = altered.id;
    let def = Shared::new(alloc, altered)?;
    let change = next_change(id, tables, columns)?;
    let starts = changed_column_start(alloc, change, def.get(), ordinal.into(), &column)?;
    let rows = new_rows(alloc, COLUMNS, tx, seq, starts)?;
    let placed = PlacedDef {
        place: id as usize - 1,
        def,
        names: None,
    };
    Ok(AlteredTable { placed, rows })
}

/// The checks of DROP TABLE, and all that it changes where the tables of the system have these versions, its event
/// numbered `seq`.
pub(crate) fn work_out_drop(
    alloc: Global,
    defs: &NamedDefs,
    tables: &[Version],
    columns: &[Version],
    tx: TxId,
    seq: u64,
    name: &Name,
) -> Result<AlteredTable, Refusal>
    requires { AreFormed defs.now }
    ensures { MatchResult result
        (IsDroppedTable defs.now (table_drop defs.now tables.now columns.now name.now) tx seq)
        (λ e. e ≢ NoMemory → table_drop defs.now tables.now columns.now name.now ≡ Err e) }
{
    let dropped = check_drop(alloc, defs, name)?;
    let id = dropped.id;
    let def = Shared::new(alloc, dropped)?;
    let change = next_change(id, tables, columns)?;
    let starts = changed_table_start(alloc, change, def.get())?;
    let rows = new_rows(alloc, TABLES, tx, seq, starts)?;
    let place = id as usize - 1;
    let names = defs.names_with(alloc, place, def.get())?;
    let placed = PlacedDef {
        place,
        def,
        names: Some(names),
    };
    Ok(AlteredTable { placed, rows })
}
