//! ALTER TABLE and DROP TABLE.

ghost use Rattle.std.specs.Prelude.{◌≡◌, ◌-◌, ◌<◌, ◌^◌, IfOk, Ok, length};
ghost use Rattle.std.specs.List.{AllByRecursion};
ghost use Rattle.spec_model.specs.Agreement.{IdsFrom};
ghost use Rattle.spec_model.specs.Alter.{alter_check, alteration, drop_check, next_change as spec_next_change, table_drop};
ghost use Rattle.spec_model.specs.Catalog.{defs_of, versions_of as spec_versions_of};
ghost use Rattle.spec_model.specs.Effect as spec;
ghost use Rattle.spec_model.specs.Refusals.{MatchesUnlessOom};
ghost use Rattle.spec_model.specs.SystemTables.{tables_id, columns_id};
ghost use Rattle.sql_reference.specs.StatementResult.{AlteredMatchesUnlessOom, IsReady, MatchesEffectUnlessOom, altered_of};

use crate::catalog::{DefsOf, find, versions_of};
use crate::creating::{COLUMNS, TABLES, add_system_rows};
use crate::effect::StatementResult;
use base_types::{Items, Memory, Name, TableId, TxId};
use sql_check::{WithColumn, altered_name, altered_table, dropped_table};
use sql_system::{changed_column_start, changed_table_start, next_change};
use sql_types::{Alter, Change, Reply, Table, TableDef};
use sql_value::Refusal;
use std::alloc::Global;

/// The definition that takes the place of the one with its id, and the starts of rows in the table of tables
/// and in the table of columns.
#[derive(Drop)]
pub(crate) struct AlteredTable {
    pub def: TableDef,
    pub first: Items<Change>,
    pub second: Items<Change>,
}

/// Checks ALTER TABLE and makes the definition; nothing is changed.
#[tactic(auto, using(sql_check::proofs::Alterations::altered_is))]
fn check_alter(alloc: Global, tables: &[Table], alter: &Alter) -> Result<WithColumn, Refusal>
    requires { AllByRecursion (λ def. length def.columns < 2 ^ 16 - 1) (defs_of tables.now) }
    ensures { MatchesUnlessOom (alter_check (defs_of tables.now) alter.now) result }
{
    let Some((table, part)) = find(tables, altered_name(alter)) else {
        return Err(Refusal::NoSuchTable);
    };
    altered_table(alloc, &table.def, part, alter)
}

/// Checks DROP TABLE and makes the definition; nothing is changed.
#[tactic(auto, unfolding(spec_model::specs::Alter::drop_check))]
fn check_drop(alloc: Global, tables: &[Table], name: &Name) -> Result<TableDef, Refusal>
    ensures { MatchesUnlessOom (drop_check (defs_of tables.now) name.now) result }
{
    let Some((table, part)) = find(tables, name) else {
        return Err(Refusal::NoSuchTable);
    };
    dropped_table(alloc, &DefsOf { tables }, &table.def, part)
}

/// The number of the next change of the table with this id.
fn change_of(tables: &[Table], id: TableId) -> Result<u64, Memory>
    ensures { IfOk result (λ change. change
        ≡ spec_next_change id (spec_versions_of tables.now tables_id) (spec_versions_of tables.now columns_id)) }
{
    next_change(
        id,
        versions_of(tables, TABLES),
        versions_of(tables, COLUMNS),
    )
}

/// Checks ALTER TABLE and works out what it makes; nothing is changed.
fn work_out_alter(alloc: Global, tables: &[Table], alter: &Alter) -> Result<AlteredTable, Refusal>
    requires { AllByRecursion (λ def. length def.columns < 2 ^ 16 - 1) (defs_of tables.now) }
    ensures { AlteredMatchesUnlessOom (alteration (defs_of tables.now)
        (spec_versions_of tables.now tables_id) (spec_versions_of tables.now columns_id) alter.now) result }
{
    let (def, (ordinal, column)) = check_alter(alloc, tables, alter)?;
    let change = change_of(tables, def.id)?;
    let second = changed_column_start(alloc, change, &def, ordinal.into(), &column)?;
    Ok(AlteredTable {
        def,
        first: Items::new(alloc),
        second,
    })
}

/// Checks DROP TABLE and works out what it makes; nothing is changed.
fn work_out_drop(alloc: Global, tables: &[Table], name: &Name) -> Result<AlteredTable, Refusal>
    ensures { AlteredMatchesUnlessOom (table_drop (defs_of tables.now)
        (spec_versions_of tables.now tables_id) (spec_versions_of tables.now columns_id) name.now) result }
{
    let def = check_drop(alloc, tables, name)?;
    let change = change_of(tables, def.id)?;
    let first = changed_table_start(alloc, change, &def)?;
    Ok(AlteredTable {
        def,
        first,
        second: Items::new(alloc),
    })
}

/// Puts the definition in the place of the one with its id. Where no table has it nothing is changed. The
/// versions stay where they are.
fn redefine(tables: &mut Vec<Table>, def: TableDef)
    requires { IdsFrom 1 (defs_of tables.old.items) }
    ensures { tables.new.items ≡ spec.redefined def tables.old.items }
{
    // the first table has the id 1, the next 2, and so on
    let id = def.id as usize;
    if id == 0 || tables.len() < id {
        return;
    }
    tables[id - 1].def = def;
}

/// The rows of the system tables, and then the new definition.
fn carry_out(
    alloc: Global,
    tables: &mut Vec<Table>,
    tx: TxId,
    seq: u64,
    altered: AlteredTable,
) -> Result<StatementResult, Memory>
    requires { IsReady tx seq tables.old.items }
    ensures { IfOk result (λ done. spec.altered_effect tables.old.items tx seq (Ok (altered_of altered))
        ≡ record { tables = tables.new.items; seq = done.seq; reply = done.reply }) }
{
    let AlteredTable { def, first, second } = altered;
    let next = add_system_rows(alloc, tables, tx, seq, first, second)?;
    redefine(tables, def);
    Ok(StatementResult {
        seq: next,
        reply: Reply::Made,
    })
}

/// ALTER TABLE. No version of the table is looked at.
pub(crate) fn alter_table(
    alloc: Global,
    tables: &mut Vec<Table>,
    tx: TxId,
    seq: u64,
    alter: &Alter,
) -> Result<StatementResult, Refusal>
    requires { IsReady tx seq tables.old.items }
    ensures { MatchesEffectUnlessOom (spec.altered_effect tables.old.items tx seq (alteration (defs_of tables.old.items)
        (spec_versions_of tables.old.items tables_id) (spec_versions_of tables.old.items columns_id) alter.now))
        tables.old.items tables.new.items seq result }
{
    let altered = work_out_alter(alloc, tables, alter)?;
    Ok(carry_out(alloc, tables, tx, seq, altered)?)
}

/// DROP TABLE. No version of the table is looked at.
pub(crate) fn drop_table(
    alloc: Global,
    tables: &mut Vec<Table>,
    tx: TxId,
    seq: u64,
    name: &Name,
) -> Result<StatementResult, Refusal>
    requires { IsReady tx seq tables.old.items }
    ensures { MatchesEffectUnlessOom (spec.altered_effect tables.old.items tx seq (table_drop (defs_of tables.old.items)
        (spec_versions_of tables.old.items tables_id) (spec_versions_of tables.old.items columns_id) name.now))
        tables.old.items tables.new.items seq result }
{
    let altered = work_out_drop(alloc, tables, name)?;
    Ok(carry_out(alloc, tables, tx, seq, altered)?)
}
