//! The changes that a statement makes to the versions of its table.

ghost use Rattle.std.specs.Prelude.{◌≡◌, IfOk, Ok, map};
ghost use Rattle.std.specs.List.{zip};
ghost use Rattle.spec_model.specs.Refusals.{MatchesUnlessOom, and_then};
ghost use Rattle.spec_model.specs.Lists.{checked_map};
ghost use Rattle.spec_model.specs.Rows.{stored_row as spec_stored_row};
ghost use Rattle.spec_model.specs.Changes as spec;

use crate::inserting::inserted_rows;
use crate::matching::versions_matched;
use crate::setting::{replacement, rows_after_set};
use crate::written::WrittenNames;
use base_types::{Items, Memory, Name};
use sql_parts::{KeyedTable, LiveVersions, stored_row};
use sql_types::{Change, Row, RowStmt, Version};
use sql_value::{ColumnDef, Expr, Refusal};
use std::alloc::Global;

/// The changes that a statement makes to the versions of its table, which its name stands for, and the number
/// of rows that it replies. The first refusal in the order of the definition decides: for INSERT row by row
/// NullNotAllowed, TypeMismatch, NumberOutOfRange and ValueTooLong of its values, and then DuplicateKey where a row of its key stands or was inserted before it;
/// for UPDATE and DELETE those of the condition for all rows in key order, and then those of the new values.
/// NoMemory for want of memory. Nothing is changed. INSERT compares each row with all versions; the others look at
/// each version once, and sort those that stand.
pub fn row_changes(
    alloc: Global,
    table: &KeyedTable,
    versions: &[Version],
    stmt: &RowStmt,
) -> Result<(Items<Change>, u64), Refusal>
    ensures { MatchesUnlessOom (spec.row_changes table.now versions.now stmt.now) result }
{
    row_changes_of(alloc, table, &versions, stmt)
}

/// The same, where the versions that stand are found as `versions` finds them. INSERT of n rows looks each up
/// there once, and by halving among the n; UPDATE and DELETE look at the versions of the key that the
/// condition fixes, or at all that stand.
#[tactic(auto, unfolding(spec_model::specs::Changes::row_changes))]
pub fn row_changes_of<R: LiveVersions>(
    alloc: Global,
    table: &KeyedTable,
    versions: &R,
    stmt: &RowStmt,
) -> Result<(Items<Change>, u64), Refusal>
    requires { R.are_of versions.now table.now }
    ensures { MatchesUnlessOom (spec.row_changes table.now (R.versions versions.now) stmt.now) result }
{
    match stmt {
        RowStmt::Insert {
            table: _,
            columns,
            rows,
        } => { insert(alloc, table, versions, columns, rows) }
        RowStmt::Update {
            table: _,
            sets,
            cond,
        } => { update(alloc, table, versions, sets, cond) }
        RowStmt::Delete { table: _, cond } => delete(alloc, table, versions, cond),
    }
}

fn insert<R: LiveVersions>(
    alloc: Global,
    table: &KeyedTable,
    versions: &R,
    names: &Option<Items<Name>>,
    rows: &Items<Row>,
) -> Result<(Items<Change>, u64), Refusal>
    requires { R.are_of versions.now table.now }
    ensures { MatchesUnlessOom
        (and_then (spec.inserted_rows table.now.columns (R.versions versions.now)
        (spec.written_names table.now names.now) rows.now)
        (λ kept. Ok (spec.insertion table.now.columns kept))) result }
{
    let names = WrittenNames::of(alloc, table.def(), names)?;
    let rows = inserted_rows(alloc, table, versions, names.get(), rows.as_slice())?;
    let count = rows.len() as u64;
    let changes = starts(alloc, table.columns(), rows)?;
    Ok((changes, count))
}

fn starts(alloc: Global, columns: &[ColumnDef], rows: Items<Row>) -> Result<Items<Change>, Memory>
    ensures { IfOk result (λ changes. changes
        ≡ map (λ row. spec.Starts (spec_stored_row columns.now row)) rows) }
{
    let mut changes = Items::new(alloc);
    for row in rows.into_vec() {
        changes.push(Change::Starts(stored_row(alloc, columns, row)?))?;
    }
    Ok(changes)
}

fn delete<R: LiveVersions>(
    alloc: Global,
    table: &KeyedTable,
    versions: &R,
    cond: &Option<Expr>,
) -> Result<(Items<Change>, u64), Refusal>
    requires { R.are_of versions.now table.now }
    ensures { MatchesUnlessOom (and_then (spec.versions_matched table.now.columns cond.now (R.versions versions.now))
        (λ taken. Ok (spec.deletion taken))) result }
{
    let taken = versions_matched(alloc, table, cond, versions)?;
    let changes = ends(alloc, &taken)?;
    Ok((changes, taken.len() as u64))
}

fn ends(alloc: Global, taken: &[&Version]) -> Result<Items<Change>, Memory>
    ensures { IfOk result (λ changes. changes ≡ map (λ v. spec.Ends v.start) (map (λ v. v.now) taken.now)) }
{
    let mut changes = Items::new(alloc);
    for version in taken {
        changes.push(Change::Ends(version.start))?;
    }
    Ok(changes)
}

fn update<R: LiveVersions>(
    alloc: Global,
    table: &KeyedTable,
    versions: &R,
    sets: &Items<(Name, Expr)>,
    cond: &Option<Expr>,
) -> Result<(Items<Change>, u64), Refusal>
    requires { R.are_of versions.now table.now }
    ensures { MatchesUnlessOom (and_then (spec.versions_matched table.now.columns cond.now (R.versions versions.now))
        (λ taken. and_then (checked_map (spec.row_after_set table.now.columns sets.now) taken)
        (λ rows. Ok (spec.replacement table.now.columns (zip taken rows))))) result }
{
    let taken = versions_matched(alloc, table, cond, versions)?;
    let rows = rows_after_set(alloc, table.def(), sets.as_slice(), &taken)?;
    let changes = replacement(alloc, table.columns(), &taken, rows)?;
    Ok((changes, taken.len() as u64))
}
