//! Rows of the system tables with the places of their starts, and what they say.

ghost use Rattle.std.specs.Prelude.{◌≡◌, ◌==◌, ◌&&◌, not, map, IfOk};
ghost use Rattle.std.specs.List.{filter};
ghost use Rattle.spec_model.specs.Keys.{value_at};
ghost use Rattle.law_catalog_rows.specs.Latest.{change_of, number_at as spec_number_at};
ghost use Rattle.spec_rules.specs.Places as places;
ghost use Rattle.spec_rules.specs.Rows as spec;
ghost use Rattle.audit_rules.specs.Seen.{row_of, seen};

use audit_columns::{Positions, Rank};
use audit_definitions::{is_past, is_proper_name, number_at, table_of};
use base_types::Memory;
use sql_parts::{Valued, compare_values};
use sql_types::Version;
use sql_value::Value;
use std::alloc::Global;

/// A row of a system table, with the place of its start.
#[derive(Clone, Copy, Debug)]
pub struct PlacedVersion<'a> {
    pub version: &'a Version,
    pub place: Rank,
}

/// The rows with their places.
pub(crate) fn placed_rows<'a>(
    alloc: Global,
    positions: &Positions,
    versions: &'a [Version],
) -> Result<Vec<PlacedVersion<'a>>, Memory>
    ensures { IfOk result (λ rows. seen rows.items ≡ map (places.placed positions.now) versions.now) }
{
    let mut rows = Vec::with_capacity(alloc, versions.len())?;
    for version in versions {
        rows.push(PlacedVersion {
            version,
            place: positions.rank_of(version.start),
        })?;
    }
    Ok(rows)
}

pub(crate) fn is_before(a: Rank, b: Rank) -> bool
    ensures { result ≡ places.stands_before a b }
{
    a.0 < b.0 || (a.0 == b.0 && a.1 < b.1)
}

// ---- what a row says

/// The number at this place of the row, counted from 0.
pub(crate) fn number(row: &PlacedVersion, at: usize) -> i128
    ensures { result ≡ spec_number_at at (row_of row.now).row }
{
    number_at(row.version, at)
}

/// The number of a column or of a part of an index.
pub(crate) fn item_of(row: &PlacedVersion) -> i128
    ensures { result ≡ spec.item_of (row_of row.now) }
{
    number(row, 1)
}

pub(crate) fn is_column_row(row: &PlacedVersion) -> bool
    ensures { result ≡ spec.is_column_row (row_of row.now) }
{
    item_of(row).cmp(&1000).is_lt()
}

/// The change of the row, where what it is about is named at `thing`.
pub(crate) fn change(thing: u8, row: &PlacedVersion) -> i128
    ensures { result ≡ change_of thing (row_of row.now).row }
{
    number(row, usize::from(thing) + 1)
}

pub(crate) fn has_no_change(thing: u8, row: &PlacedVersion) -> bool
    ensures { result ≡ spec.has_no_change thing (row_of row.now) }
{
    change(thing, row) == 0
}

/// Whether the row says that its column was dropped.
pub(crate) fn says_dropped(row: &PlacedVersion) -> bool
    ensures { result ≡ spec.says_dropped (row_of row.now) }
{
    number(row, 8) == -1
}

pub(crate) fn is_same_thing(thing: usize, a: &PlacedVersion, b: &PlacedVersion) -> bool
    ensures { result ≡ spec.same_thing thing (row_of a.now) (row_of b.now) }
{
    number(a, thing) == number(b, thing)
}

/// Whether the values of two rows at this place are one.
pub(crate) fn is_same_value(at: usize, a: &PlacedVersion, b: &PlacedVersion) -> bool
    ensures { result ≡ spec.same_value (value_at (row_of a.now).row at) (value_at (row_of b.now).row at) }
{
    compare_values(a.version.value_at(at), b.version.value_at(at)).is_eq()
}

pub(crate) fn is_null(row: &PlacedVersion, at: usize) -> bool
    ensures { result ≡ spec.is_null (value_at (row_of row.now).row at) }
{
    match row.version.value_at(at) {
        None | Some(Value::Null) => true,
        Some(Value::Num { .. } | Value::Text(_) | Value::Bytes(_) | Value::Date(_)) => false,
    }
}

/// Whether the value at this place is a text that may be a name.
pub(crate) fn has_proper_text(row: &PlacedVersion, at: usize) -> bool
    ensures { result ≡ spec.is_proper_text (value_at (row_of row.now).row at) }
{
    match row.version.value_at(at) {
        Some(Value::Text(text)) => is_proper_name(text.bytes()),
        None | Some(Value::Null | Value::Num { .. } | Value::Bytes(_) | Value::Date(_)) => false,
    }
}

// ---- which rows

pub(crate) fn is_about(table: i128, row: &PlacedVersion) -> bool
    ensures { result ≡ spec.is_about_table table (row_of row.now) }
{
    match table_of(row.version) {
        Some(own) => own == table,
        None => false,
    }
}

/// Those about the table.
pub(crate) fn rows_about<'a>(
    alloc: Global,
    rows: &[PlacedVersion<'a>],
    table: i128,
) -> Result<Vec<PlacedVersion<'a>>, Memory>
    ensures { IfOk result (λ own. seen own.items ≡ filter (spec.is_about_table table) (seen rows.now)) }
{
    let mut own = Vec::new(alloc);
    for row in rows {
        if is_about(table, row) {
            own.push(*row)?;
        }
    }
    Ok(own)
}

/// Those about columns.
pub(crate) fn column_rows<'a>(
    alloc: Global,
    rows: &[PlacedVersion<'a>],
) -> Result<Vec<PlacedVersion<'a>>, Memory>
    ensures { IfOk result (λ columns. seen columns.items ≡ filter spec.is_column_row (seen rows.now)) }
{
    let mut columns = Vec::new(alloc);
    for row in rows {
        if is_column_row(row) {
            columns.push(*row)?;
        }
    }
    Ok(columns)
}

/// Those about indexes.
pub(crate) fn index_rows<'a>(
    alloc: Global,
    rows: &[PlacedVersion<'a>],
) -> Result<Vec<PlacedVersion<'a>>, Memory>
    ensures { IfOk result (λ parts. seen parts.items ≡ filter (λ r. not (spec.is_column_row r)) (seen rows.now)) }
{
    let mut parts = Vec::new(alloc);
    for row in rows {
        if !is_column_row(row) {
            parts.push(*row)?;
        }
    }
    Ok(parts)
}

/// Whether none of these rows is about the same thing and has a lesser change.
fn is_first_of(thing: u8, rows: &[PlacedVersion], row: &PlacedVersion) -> bool
    ensures { result ≡ spec.is_first_of thing (seen rows.now) (row_of row.now) }
{
    for other in rows {
        if is_past(thing, row.version, other.version) {
            return false;
        }
    }
    true
}

/// The first row about each thing, by its change.
pub(crate) fn firsts<'a>(
    alloc: Global,
    thing: u8,
    rows: &[PlacedVersion<'a>],
) -> Result<Vec<PlacedVersion<'a>>, Memory>
    ensures { IfOk result (λ first. seen first.items ≡ spec.firsts thing (seen rows.now)) }
{
    let mut first = Vec::new(alloc);
    for row in rows {
        if is_first_of(thing, rows, row) {
            first.push(*row)?;
        }
    }
    Ok(first)
}

/// All other rows.
pub(crate) fn seconds<'a>(
    alloc: Global,
    thing: u8,
    rows: &[PlacedVersion<'a>],
) -> Result<Vec<PlacedVersion<'a>>, Memory>
    ensures { IfOk result (λ second. seen second.items ≡ spec.seconds thing (seen rows.now)) }
{
    let mut second = Vec::new(alloc);
    for row in rows {
        if !is_first_of(thing, rows, row) {
            second.push(*row)?;
        }
    }
    Ok(second)
}
