//! The rows of the parts of a table.

ghost use Rattle.std.specs.Prelude.{◌≡◌, ◌++◌, [], ◌∷◌, IfOk, OnOk, Some, map};
ghost use Rattle.sql_value.specs.declared.value.Value.TheVariants.{Text as TextOf};
ghost use Rattle.spec_model.specs.Rows.{row_of, number as number_of};
ghost use Rattle.spec_model.specs.Parts as spec;
ghost use Rattle.spec_model.specs.Keys as keys;
ghost use Rattle.sql_parts.specs.Places.{row_in};

use crate::keyed::KeyedTable;
use crate::live::live_by_key;
use crate::order::sort_by_event;
use crate::values::{add_values, number};
use base_types::{Items, Memory, Text};
use sql_types::{EventId, Key, Part, Row, Version};
use sql_value::{ColumnDef, Value};
use std::alloc::Global;

/// The rows of a part of a table: the versions that stand by key, those that ended as they are listed, and
/// for the view one row for each start and each end by its event. Where a base table's key is fixed, the
/// rows with that key alone.
#[tactic(auto, unfolding(spec_model::specs::Parts::rows_of))]
pub fn part_rows(
    alloc: Global,
    table: &KeyedTable,
    part: Part,
    key: &Option<Key>,
    versions: &[Version],
) -> Result<Vec<Row>, Memory>
    ensures { IfOk result (λ rows. rows.items ≡ spec.rows_of table.now part key.now versions.now) }
{
    match part {
        Part::Base => live_rows_by_key(alloc, table, key, versions),
        Part::History => history_rows(alloc, table.columns(), versions),
        Part::View => view_rows(alloc, table.columns(), versions),
        Part::System => live_rows_by_key(alloc, table, &None, versions),
    }
}

/// The values of a version, one for each of the declared columns, with its start.
pub fn base_row(alloc: Global, declared: &[ColumnDef], version: &Version) -> Result<Row, Memory>
    ensures { IfOk result (λ row. row ≡ spec.base_row declared.now version.now) }
{
    let mut row = Vec::new(alloc);
    add_values(declared, version, &mut row)?;
    row.push(number(version.start.tx))?;
    row.push(number(version.start.seq))?;
    Ok(Items::from_vec(row))
}

/// The values of a version, one for each of the declared columns, with its start and this end.
pub(crate) fn history_row(
    alloc: Global,
    declared: &[ColumnDef],
    version: &Version,
    end: EventId,
) -> Result<Row, Memory>
    ensures { IfOk result (λ row. row ≡ spec.history_row declared.now version.now end) }
{
    let mut row = Vec::new(alloc);
    add_values(declared, version, &mut row)?;
    row.push(number(version.start.tx))?;
    row.push(number(end.tx))?;
    row.push(number(version.start.seq))?;
    row.push(number(end.seq))?;
    Ok(Items::from_vec(row))
}

/// The values of a version, one for each of the declared columns, with an event of it and what that did.
fn view_row(
    alloc: Global,
    declared: &[ColumnDef],
    version: &Version,
    event: EventId,
    operation: u64,
    name: &str,
) -> Result<Row, Memory>
    ensures { IfOk result (λ row. row ≡ row_of declared.now version.now ++ number_of event.0 ∷ number_of event.1
        ∷ number_of operation ∷ TextOf name.now ∷ []) }
{
    let mut row = Vec::new(alloc);
    add_values(declared, version, &mut row)?;
    row.push(number(event.tx))?;
    row.push(number(event.seq))?;
    row.push(number(operation))?;
    row.push(Value::Text(Text::of_str(alloc, name)?))?;
    Ok(Items::from_vec(row))
}

fn live_rows_by_key(
    alloc: Global,
    table: &KeyedTable,
    key: &Option<Key>,
    versions: &[Version],
) -> Result<Vec<Row>, Memory>
    ensures { IfOk result (λ rows. rows.items
        ≡ map (spec.base_row table.now.columns)
        (keys.live_by_key table.now.columns key.now versions.now)) }
{
    let live_by_key = live_by_key(alloc, table, key, versions)?;
    base_rows(alloc, table.columns(), &live_by_key)
}

fn base_rows(
    alloc: Global,
    declared: &[ColumnDef],
    versions: &[&Version],
) -> Result<Vec<Row>, Memory>
    ensures { IfOk result (λ rows. rows.items
        ≡ map (spec.base_row declared.now) (map (λ v. v.now) versions.now)) }
{
    let mut rows = Vec::with_capacity(alloc, versions.len())?;
    for version in versions {
        rows.push(base_row(alloc, declared, *version)?)?;
    }
    Ok(rows)
}

fn history_rows(
    alloc: Global,
    declared: &[ColumnDef],
    versions: &[Version],
) -> Result<Vec<Row>, Memory>
    ensures { IfOk result (λ rows. rows.items ≡ spec.history_rows declared.now versions.now) }
{
    let mut rows = Vec::new(alloc);
    for version in versions {
        if let Some(end) = version.end {
            rows.push(history_row(alloc, declared, version, end)?)?;
        }
    }
    Ok(rows)
}

fn view_rows(
    alloc: Global,
    declared: &[ColumnDef],
    versions: &[Version],
) -> Result<Vec<Row>, Memory>
    ensures { IfOk result (λ rows. rows.items ≡ spec.view_rows declared.now versions.now) }
{
    let mut shown = Vec::new(alloc);
    for version in versions {
        show_start(alloc, declared, version, &mut shown)?;
        show_end(alloc, declared, version, &mut shown)?;
    }
    sort_by_event(&mut shown)?;
    rows_in(alloc, shown)
}

fn show_start(
    alloc: Global,
    declared: &[ColumnDef],
    version: &Version,
    shown: &mut Vec<(EventId, Row)>,
) -> Result<(), Memory>
    ensures { OnOk result
        (shown.new.items ≡ shown.old.items ++ spec.view_row_of_start declared.now version.now ∷ []) }
{
    let start = version.start;
    let row = view_row(alloc, declared, version, start, 1, "INSERT")?;
    shown.push((start, row))?;
    Ok(())
}

fn view_row_of_end(
    alloc: Global,
    declared: &[ColumnDef],
    version: &Version,
    end: EventId,
) -> Result<(EventId, Row), Memory>
    ensures { IfOk result (λ shown. shown ∷ [] ≡ spec.view_row_of_end declared.now version.now (Some end)) }
{
    let row = view_row(alloc, declared, version, end, 2, "DELETE")?;
    Ok((end, row))
}

fn show_end(
    alloc: Global,
    declared: &[ColumnDef],
    version: &Version,
    shown: &mut Vec<(EventId, Row)>,
) -> Result<(), Memory>
    ensures { OnOk result (shown.new.items
        ≡ shown.old.items ++ spec.view_row_of_end declared.now version.now version.now.end) }
{
    if let Some(end) = version.end {
        shown.push(view_row_of_end(alloc, declared, version, end)?)?;
    }
    Ok(())
}

fn rows_in(alloc: Global, shown: Vec<(EventId, Row)>) -> Result<Vec<Row>, Memory>
    ensures { IfOk result (λ rows. rows.items ≡ map row_in shown.items) }
{
    let mut rows = Vec::with_capacity(alloc, shown.len())?;
    for (_, row) in shown {
        rows.push(row)?;
    }
    Ok(rows)
}
