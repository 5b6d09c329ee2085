//! INSERT, UPDATE and DELETE.

ghost use Rattle.std.specs.Prelude.{◌≡◌, ◌+◌, IfOk};
ghost use Rattle.spec_model.specs.Catalog.{defs_of};
ghost use Rattle.spec_model.specs.Checks.{row_statement_check};
ghost use Rattle.spec_model.specs.Effect as spec;
ghost use Rattle.sql_reference.specs.Ids.{IdsRise};
ghost use Rattle.sql_reference.specs.StatementResult.{MatchesEffectUnlessOom, IsReady, PlanMatchesUnlessOom, changes_worked_out};

use crate::catalog::find;
use crate::effect::{StatementResult, counted};
use base_types::{Items, TableId, TxId};
use sql_apply::change_table;
use sql_change::row_changes;
use sql_check::{check_stmt, table_of};
use sql_parts::{KeyedTable, key_places};
use sql_types::{Change, Reply, RowStmt, Table};
use sql_value::Refusal;
use std::alloc::Global;

/// Starts and ends in the table with this id, and the number of rows that is replied.
#[derive(Drop)]
pub(crate) struct PlannedChanges {
    pub id: TableId,
    pub changes: Items<Change>,
    pub count: u64,
}

/// Checks a statement and works out its changes; nothing is changed.
#[tactic(auto, unfolding(spec_model::specs::Checks::row_statement_check))]
fn change_set(alloc: Global, tables: &[Table], stmt: &RowStmt) -> Result<PlannedChanges, Refusal>
    requires { IdsRise 0 (defs_of tables.now) }
    ensures { PlanMatchesUnlessOom (changes_worked_out tables.now stmt.now) result }
{
    let Some((table, part)) = find(tables, table_of(stmt)) else {
        return Err(Refusal::NoSuchTable);
    };
    check_stmt(alloc, stmt, &table.def, part)?;
    let key = key_places(alloc, table.def.columns.as_slice())?;
    let keyed = KeyedTable::new(&table.def, &key);
    let (changes, count) = row_changes(alloc, &keyed, table.versions.as_slice(), stmt)?;
    Ok(PlannedChanges {
        id: table.def.id,
        changes,
        count,
    })
}

/// INSERT, UPDATE and DELETE: all changes are known before the first is made.
pub(crate) fn change_rows(
    alloc: Global,
    tables: &mut Vec<Table>,
    tx: TxId,
    seq: u64,
    stmt: &RowStmt,
) -> Result<StatementResult, Refusal>
    requires { IsReady tx seq tables.old.items }
    ensures { MatchesEffectUnlessOom (spec.row_effect tables.old.items tx seq stmt.now
        (row_statement_check (defs_of tables.old.items) stmt.now))
        tables.old.items tables.new.items seq result }
{
    let changes_worked_out = change_set(alloc, tables, stmt)?;
    let next = counted(seq, changes_worked_out.changes.len())?;
    change_table(
        alloc,
        tables,
        changes_worked_out.id,
        tx,
        seq,
        changes_worked_out.changes,
    )?;
    Ok(StatementResult {
        seq: next,
        reply: Reply::Changed(changes_worked_out.count),
    })
}
