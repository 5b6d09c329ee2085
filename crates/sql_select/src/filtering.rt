//! The rows that a condition takes.

ghost use Rattle.std.specs.Prelude.{◌≡◌, [], IfOk, map};
ghost use Rattle.spec_model.specs.Lists.{checked_filter};
ghost use Rattle.spec_model.specs.Parts as parts;
ghost use Rattle.spec_model.specs.Where as spec;
ghost use Rattle.sql_select.specs.Answers.{ItemsMatchUnlessOom};
ghost use Rattle.sql_parts.specs.InTurn.{filter_after};

use base_types::Memory;
use sql_expr::{RowRef, holds};
use sql_parts::{Columns, base_row};
use sql_types::{Row, Version};
use sql_value::{ColumnDef, Expr, Refusal};
use std::alloc::Global;

/// The rows that a condition takes; all of them without one.
pub(crate) fn taken(
    alloc: Global,
    columns: &Columns,
    cond: &Option<Expr>,
    rows: Vec<Row>,
) -> Result<Vec<Row>, Refusal>
    ensures { ItemsMatchUnlessOom (checked_filter (spec.holds columns.now cond.now) rows.items) result }
{
    match cond {
        None => Ok(rows),
        Some(_) => those_taken(alloc, columns, cond, rows),
    }
}

fn those_taken(
    alloc: Global,
    columns: &Columns,
    cond: &Option<Expr>,
    rows: Vec<Row>,
) -> Result<Vec<Row>, Refusal>
    ensures { ItemsMatchUnlessOom (filter_after (spec.holds columns.now cond.now) [] rows.items) result }
{
    let mut taken = Vec::new(alloc);
    for row in rows {
        if holds(columns, cond, &RowRef::of(row.as_slice()))? {
            taken.push(row)?;
        }
    }
    Ok(taken)
}

/// The rows of the versions that a condition takes. Only these are copied.
pub(crate) fn matching_rows(
    alloc: Global,
    declared: &[ColumnDef],
    columns: &Columns,
    cond: &Option<Expr>,
    versions: &[&Version],
) -> Result<Vec<Row>, Refusal>
    ensures { ItemsMatchUnlessOom
        (checked_filter (spec.holds columns.now cond.now)
        (map (parts.base_row declared.now) (map (λ v. v.now) versions.now))) result }
{
    each_taken(alloc, declared, columns, cond, versions)
}

fn each_taken(
    alloc: Global,
    declared: &[ColumnDef],
    columns: &Columns,
    cond: &Option<Expr>,
    versions: &[&Version],
) -> Result<Vec<Row>, Refusal>
    ensures { ItemsMatchUnlessOom
        (filter_after (spec.holds columns.now cond.now) []
        (map (parts.base_row declared.now) (map (λ v. v.now) versions.now))) result }
{
    let mut taken = Vec::new(alloc);
    for version in versions {
        if holds(columns, cond, &RowRef::of_version(declared, *version))? {
            taken.push(base_row(alloc, declared, *version)?)?;
        }
    }
    Ok(taken)
}
