//! The checks of INSERT, UPDATE and DELETE.

ghost use Rattle.std.specs.Prelude.{◌≡◌, ◌==◌, ◌&&◌, IfOk, Ok, map, filter_map, length};
ghost use Rattle.std.specs.List.{list_all, list_any, zip};
ghost use Rattle.sql_value.specs.Tree.{tree};
ghost use Rattle.spec_model.specs.Refusals.{MatchesUnlessOom};
ghost use Rattle.spec_model.specs.Classes as classes;
ghost use Rattle.spec_model.specs.Columns as spec_columns;
ghost use Rattle.spec_model.specs.LiveColumns.{live_columns};
ghost use Rattle.spec_model.specs.Checks as spec;

use crate::accepting::{accepts_expr, accepts_value, is_condition, names_condition};
use crate::names::repeats;
use base_types::{Items, Memory, Name};
use sql_expr::names_columns;
use sql_parts::{Columns, LiveColumns, column_of, place_of};
use sql_types::{Part, Row, RowStmt, TableDef};
use sql_value::{ColumnDef, Expr, Refusal, TableKind, Value};
use std::alloc::Global;

/// The most rows in one VALUES.
const MOST_ROWS: usize = 1000;

/// Refuses where a check fails.
pub(crate) fn refuse_if(fails: bool, refusal: Refusal) -> Result<(), Refusal>
    ensures { result ≡ spec.refused_if fails refusal (Ok tt) }
{
    if fails { Err(refusal) } else { Ok(()) }
}

/// The name of the table that a statement changes.
pub fn table_of(stmt: &RowStmt) -> &Name
    ensures { result.now ≡ spec.table_of stmt.now }
{
    match stmt {
        RowStmt::Insert {
            table,
            columns: _,
            rows: _,
        } => table,
        RowStmt::Update {
            table,
            sets: _,
            cond: _,
        } => table,
        RowStmt::Delete { table, cond: _ } => table,
    }
}

/// Checks all of a statement that changes rows that doesn't hang on the rows of its table, of which it names
/// this part: NameConflict, LimitExceeded, ReadOnlyTable, AppendOnlyTable, NoSuchColumn, ValueCountMismatch, KeyNotUpdatable and TypeMismatch, in this order, or NoMemory for want of memory.
pub fn check_stmt(alloc: Global, stmt: &RowStmt, def: &TableDef, part: Part) -> Result<(), Refusal>
    ensures { MatchesUnlessOom (spec.row_check stmt.now def.now part) result }
{
    match stmt {
        RowStmt::Insert {
            table: _,
            columns,
            rows,
        } => { check_insert(alloc, def, part, columns, rows.as_slice()) }
        RowStmt::Update {
            table: _,
            sets,
            cond,
        } => { check_update(alloc, def, part, sets.as_slice(), cond) }
        RowStmt::Delete { table: _, cond } => check_delete(def, part, cond),
    }
}

/// Whether statements may change what a part of a table stands for: neither a history table, a view or a system table, nor
/// a table that was dropped.
pub(crate) fn is_standing(def: &TableDef, part: Part) -> bool
    ensures { result ≡ spec.is_standing def.now part }
{
    part == Part::Base && !def.gone
}

fn names_listed(names: &Option<Items<Name>>) -> &[Name]
    ensures { result.now ≡ spec.names_listed names.now }
{
    match names {
        Some(names) => names.as_slice(),
        None => &[],
    }
}

/// The columns to which the values of a row go: those listed, or all that stand.
fn listed<'a>(
    alloc: Global,
    live: &LiveColumns<'a>,
    names: &Option<Items<Name>>,
) -> Result<Vec<&'a ColumnDef>, Memory>
    ensures { IfOk result (λ listed. map (λ c. c.now) listed.items ≡ spec.listed live.now names.now) }
{
    match names {
        Some(names) => columns_named(alloc, live, names.as_slice()),
        None => live.all(alloc),
    }
}

fn columns_named<'a>(
    alloc: Global,
    live: &LiveColumns<'a>,
    names: &[Name],
) -> Result<Vec<&'a ColumnDef>, Memory>
    ensures { IfOk result (λ listed. map (λ c. c.now) listed.items
        ≡ filter_map (spec_columns.column_of live.now) names.now) }
{
    let mut listed = Vec::new(alloc);
    for name in names {
        if let Some(column) = live.column_of(name) {
            listed.push(column)?;
        }
    }
    Ok(listed)
}

/// Whether the columns take the values of a row, each its own.
fn accept_row(columns: &[&ColumnDef], row: &[Value]) -> bool
    ensures { result ≡ list_all (λ p. spec.accepts_value p.0 p.1)
        (zip (map (λ c. c.now) columns.now) row.now) }
{
    match columns {
        [] => true,
        [column, columns @ ..] => match row {
            [] => true,
            [value, row @ ..] => accepts_value(column, value) && accept_row(columns, row),
        },
    }
}

fn accept_rows(columns: &[&ColumnDef], rows: &[Row]) -> bool
    ensures { result
        ≡ list_all (λ row. list_all (λ p. spec.accepts_value p.0 p.1)
        (zip (map (λ c. c.now) columns.now) row)) rows.now }
{
    rows.iter().all(|row| accept_row(columns, row.as_slice()))
}

fn have_values(rows: &[Row], count: usize) -> bool
    ensures { result ≡ list_all (λ row. length row == count) rows.now }
{
    rows.iter().all(|row| row.len() == count)
}

/// Whether all these columns are declared.
pub(crate) fn are_declared(columns: &[ColumnDef], names: &[Name]) -> bool
    ensures { result ≡ list_all (spec.is_declared columns.now) names.now }
{
    names.iter().all(|name| place_of(columns, name).is_some())
}

/// Whether all these columns are among those that stand.
pub(crate) fn are_live(live: &LiveColumns, names: &[Name]) -> bool
    ensures { result ≡ list_all (spec.is_declared live.now) names.now }
{
    names.iter().all(|name| live.has(name))
}

/// ValueCountMismatch and TypeMismatch of an INSERT.
#[tactic(auto, unfolding(spec_model::specs::Checks::listed_check))]
fn check_listed(columns: &[&ColumnDef], rows: &[Row]) -> Result<(), Refusal>
    ensures { result ≡ spec.listed_check (map (λ c. c.now) columns.now) rows.now }
{
    refuse_if(
        !have_values(rows, columns.len()),
        Refusal::ValueCountMismatch,
    )?;
    refuse_if(!accept_rows(columns, rows), Refusal::TypeMismatch)
}

/// NoSuchColumn, ValueCountMismatch and TypeMismatch of an INSERT.
#[tactic(auto, unfolding(spec_model::specs::Checks::values_check), using(sql_parts::proofs::Refusals::gives_itself))]
fn check_values(
    alloc: Global,
    live: &LiveColumns,
    names: &Option<Items<Name>>,
    rows: &[Row],
) -> Result<(), Refusal>
    ensures { MatchesUnlessOom (spec.values_check live.now names.now rows.now) result }
{
    refuse_if(!are_live(live, names_listed(names)), Refusal::NoSuchColumn)?;
    let listed = listed(alloc, live, names)?;
    check_listed(&listed, rows)
}

#[tactic(auto, unfolding(spec_model::specs::Checks::insert_check))]
fn check_insert(
    alloc: Global,
    def: &TableDef,
    part: Part,
    names: &Option<Items<Name>>,
    rows: &[Row],
) -> Result<(), Refusal>
    ensures { MatchesUnlessOom (spec.insert_check def.now part names.now rows.now) result }
{
    refuse_if(repeats(alloc, names_listed(names))?, Refusal::NameConflict)?;
    refuse_if(rows.len() > MOST_ROWS, Refusal::LimitExceeded)?;
    refuse_if(!is_standing(def, part), Refusal::ReadOnlyTable)?;
    check_values(alloc, &LiveColumns::of(def), names, rows)
}

/// Whether the columns that SET names stand, and those that its values name are there.
fn sets_name_columns(live: &LiveColumns, columns: &Columns, sets: &[(Name, Expr)]) -> bool
    ensures { result ≡ list_all (λ s. spec.is_declared live.now s.0
        && classes.names_columns columns.now (tree s.1)) sets.now }
{
    sets.iter()
        .all(|set| live.has(&set.0) && names_columns(&set.1, columns))
}

/// The same, and those that the condition names.
fn update_names_columns(
    def: &TableDef,
    columns: &Columns,
    sets: &[(Name, Expr)],
    cond: &Option<Expr>,
) -> bool
    ensures { result
        ≡ (list_all (λ s. spec.is_declared (live_columns def.now) s.0 && classes.names_columns columns.now
        (tree s.1)) sets.now && spec.cond_names columns.now cond.now) }
{
    sets_name_columns(&LiveColumns::of(def), columns, sets) && names_condition(columns, cond)
}

/// Whether the name is that of a column of the primary key.
fn is_in_key(columns: &[ColumnDef], name: &Name) -> bool
    ensures { result ≡ spec.is_in_key columns.now name.now }
{
    match column_of(columns, name) {
        Some(column) => column.key_position != 0,
        None => false,
    }
}

/// Whether the column of a table takes what an expression over these columns gives.
fn accepts_set(def: &TableDef, columns: &Columns, name: &Name, e: &Expr) -> bool
    ensures { result ≡ spec.accepts_set columns.now (spec_columns.column_of def.now.columns name.now) e.now }
{
    match column_of(def.columns.as_slice(), name) {
        Some(column) => accepts_expr(columns, column, e),
        None => false,
    }
}

/// Whether SET names a column of the primary key.
fn sets_key(columns: &[ColumnDef], sets: &[(Name, Expr)]) -> bool
    ensures { result ≡ list_any (λ s. spec.is_in_key columns.now s.0) sets.now }
{
    sets.iter().any(|set| is_in_key(columns, &set.0))
}

/// Whether each column that SET names takes its value.
fn accept_sets(def: &TableDef, columns: &Columns, sets: &[(Name, Expr)]) -> bool
    ensures { result
        ≡ list_all (λ s. spec.accepts_set columns.now
        (spec_columns.column_of def.now.columns s.0) s.1) sets.now }
{
    sets.iter()
        .all(|set| accepts_set(def, columns, &set.0, &set.1))
}

/// The same, and whether the condition is a truth value.
fn update_has_classes(
    def: &TableDef,
    columns: &Columns,
    sets: &[(Name, Expr)],
    cond: &Option<Expr>,
) -> bool
    ensures { result
        ≡ (list_all (λ s. spec.accepts_set columns.now (spec_columns.column_of def.now.columns s.0) s.1)
        sets.now && spec.cond_is_truth columns.now cond.now) }
{
    accept_sets(def, columns, sets) && is_condition(columns, cond)
}

/// NoSuchColumn, KeyNotUpdatable and TypeMismatch of an UPDATE, over the columns that its expressions may name.
#[tactic(auto, unfolding(spec_model::specs::Checks::sets_check))]
fn check_sets(
    def: &TableDef,
    columns: &Columns,
    sets: &[(Name, Expr)],
    cond: &Option<Expr>,
) -> Result<(), Refusal>
    ensures { result ≡ spec.sets_check (live_columns def.now) def.now.columns columns.now sets.now cond.now }
{
    refuse_if(
        !update_names_columns(def, columns, sets, cond),
        Refusal::NoSuchColumn,
    )?;
    refuse_if(
        sets_key(def.columns.as_slice(), sets),
        Refusal::KeyNotUpdatable,
    )?;
    refuse_if(
        !update_has_classes(def, columns, sets, cond),
        Refusal::TypeMismatch,
    )
}

#[tactic(auto, unfolding(spec_model::specs::Checks::update_check))]
fn check_update(
    alloc: Global,
    def: &TableDef,
    part: Part,
    sets: &[(Name, Expr)],
    cond: &Option<Expr>,
) -> Result<(), Refusal>
    ensures { MatchesUnlessOom (spec.update_check def.now part sets.now cond.now) result }
{
    refuse_if(repeats(alloc, sets)?, Refusal::NameConflict)?;
    refuse_if(!is_standing(def, part), Refusal::ReadOnlyTable)?;
    refuse_if(def.kind == TableKind::AppendOnly, Refusal::AppendOnlyTable)?;
    check_sets(def, &Columns::of(def, Part::Base), sets, cond)
}

#[tactic(auto, unfolding(spec_model::specs::Checks::delete_check))]
fn check_delete(def: &TableDef, part: Part, cond: &Option<Expr>) -> Result<(), Refusal>
    ensures { result ≡ spec.delete_check def.now part cond.now }
{
    refuse_if(!is_standing(def, part), Refusal::ReadOnlyTable)?;
    refuse_if(def.kind == TableKind::AppendOnly, Refusal::AppendOnlyTable)?;
    let columns = Columns::of(def, Part::Base);
    refuse_if(!names_condition(&columns, cond), Refusal::NoSuchColumn)?;
    refuse_if(!is_condition(&columns, cond), Refusal::TypeMismatch)
}
