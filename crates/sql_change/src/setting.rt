//! What SET makes of rows.

ghost use Rattle.std.specs.Prelude.{◌≡◌, ◌++◌, IfOk, OnOk, length, map, flat_map};
ghost use Rattle.std.specs.List.{zip};
ghost use Rattle.std.specs.Option.{option_copied};
ghost use Rattle.spec_model.specs.Refusals.{MatchesUnlessOom, and_then};
ghost use Rattle.spec_model.specs.Lists.{checked_map};
ghost use Rattle.spec_model.specs.Rows.{row_of as spec_row_of};
ghost use Rattle.spec_model.specs.Parts.{base_row, start_columns};
ghost use Rattle.spec_model.specs.Evaluation.{meaning_of};
ghost use Rattle.spec_model.specs.Changes as spec;

use crate::keeping::kept;
use base_types::{Items, Memory, Name};
use sql_expr::{Outcome, RowRef, eval};
use sql_parts::{Columns, row_of, stored_row};
use sql_types::{Change, Part, Row, TableDef, Version};
use sql_value::{ColumnDef, Expr, Refusal, Value};
use std::alloc::Global;

/// The expression that SET gives the column of this name.
fn expr_set<'a>(sets: &'a [(Name, Expr)], name: &Name) -> Option<&'a Expr>
    ensures { option_copied result ≡ spec.expr_set sets.now name.now }
{
    match sets {
        [] => None,
        [set, sets @ ..] => {
            if set.0 == *name {
                Some(&set.1)
            } else {
                expr_set(sets, name)
            }
        }
    }
}

fn as_value(outcome: Outcome) -> Result<Value, Refusal>
    ensures { result ≡ spec.as_value outcome }
{
    match outcome {
        Outcome::Value(value) => Ok(value),
        Outcome::Truth(_) => Err(Refusal::TypeMismatch),
    }
}

/// What a column of the table keeps of the value of an expression in a version's row.
#[tactic(auto, using(sql_parts::proofs::Refusals::gives_itself))]
fn value_given(
    def: &TableDef,
    version: &Version,
    column: &ColumnDef,
    e: &Expr,
) -> Result<Value, Refusal>
    ensures { MatchesUnlessOom (and_then (meaning_of (def.now.columns ++ start_columns) (base_row def.now.columns version.now) e.now)
        (λ o. and_then (spec.as_value o) (spec.kept column.now))) result }
{
    let columns = Columns::of(def, Part::Base);
    let row = RowRef::of_version(def.columns.as_slice(), version);
    let value = as_value(eval(e, &columns, &row)?)?;
    kept(column, value)
}

/// A column's value after SET; one that isn't named keeps its value.
fn value_set(
    def: &TableDef,
    version: &Version,
    column: &ColumnDef,
    value: Value,
    e: Option<&Expr>,
) -> Result<Value, Refusal>
    ensures { MatchesUnlessOom (spec.value_set def.now.columns (base_row def.now.columns version.now) column.now
        value (option_copied e.entry)) result }
{
    match e {
        Some(e) => value_given(def, version, column, e),
        None => Ok(value),
    }
}

/// A version's row after SET, column by column.
#[tactic(auto, unfolding(spec_model::specs::Changes::row_after_set))]
fn row_after_set(
    alloc: Global,
    def: &TableDef,
    sets: &[(Name, Expr)],
    version: &Version,
) -> Result<Row, Refusal>
    ensures { MatchesUnlessOom (spec.row_after_set def.now.columns sets.now version.now) result }
{
    values_set(alloc, def, sets, version)
}

#[tactic(auto, using(sql_parts::proofs::InTurn::map_after_none))]
fn values_set(
    alloc: Global,
    def: &TableDef,
    sets: &[(Name, Expr)],
    version: &Version,
) -> Result<Row, Refusal>
    ensures { MatchesUnlessOom
        (checked_map (λ p. spec.value_set def.now.columns (base_row def.now.columns version.now) p.0 p.1
        (spec.expr_set sets.now p.0.name)) (zip def.now.columns (spec_row_of def.now.columns version.now))) result }
{
    let columns = def.columns.as_slice();
    let row = row_of(alloc, columns, version)?;
    let mut values = Vec::with_capacity(alloc, columns.len())?;
    for (column, value) in columns.iter().zip(row.into_vec()) {
        let e = expr_set(sets, &column.name);
        values.push(value_set(def, version, column, value, e)?)?;
    }
    Ok(Items::from_vec(values))
}

#[tactic(auto, using(sql_parts::proofs::InTurn::map_after_none))]
fn each_set(
    alloc: Global,
    def: &TableDef,
    sets: &[(Name, Expr)],
    versions: &[&Version],
) -> Result<Items<Row>, Refusal>
    ensures { MatchesUnlessOom (checked_map (spec.row_after_set def.now.columns sets.now)
        (map (λ v. v.now) versions.now)) result }
{
    let mut rows = Items::new(alloc);
    for version in versions {
        rows.push(row_after_set(alloc, def, sets, *version)?)?;
    }
    Ok(rows)
}

/// The rows of versions after SET, one for each.
#[tactic(auto, using(sql_parts::proofs::Zipped::pairs_of_each))]
pub(crate) fn rows_after_set(
    alloc: Global,
    def: &TableDef,
    sets: &[(Name, Expr)],
    versions: &[&Version],
) -> Result<Items<Row>, Refusal>
    ensures value { MatchesUnlessOom (checked_map (spec.row_after_set def.now.columns sets.now)
        (map (λ v. v.now) versions.now)) result }
    ensures count { IfOk result (λ rows. length (zip (map (λ v. v.now) versions.now) rows)
        ≡ length versions.now) }
{
    let rows = each_set(alloc, def, sets, versions)?;
    Ok(rows)
}

fn add_replaced(
    alloc: Global,
    columns: &[ColumnDef],
    version: &Version,
    row: Row,
    changes: &mut Items<Change>,
) -> Result<(), Memory>
    ensures { OnOk result (changes.new ≡ changes.old ++ spec.replaced columns.now version.now row) }
{
    changes.push(Change::Ends(version.start))?;
    changes.push(Change::Starts(stored_row(alloc, columns, row)?))?;
    Ok(())
}

/// The end of each version, and then the start of the row that takes its place.
pub(crate) fn replacement(
    alloc: Global,
    columns: &[ColumnDef],
    versions: &[&Version],
    rows: Items<Row>,
) -> Result<Items<Change>, Memory>
    ensures { IfOk result (λ changes. changes ≡ flat_map (λ p. spec.replaced columns.now p.0 p.1)
        (zip (map (λ v. v.now) versions.now) rows)) }
{
    let mut changes = Items::new(alloc);
    for (version, row) in versions.iter().zip(rows.into_vec()) {
        add_replaced(alloc, columns, *version, row, &mut changes)?;
    }
    Ok(changes)
}
