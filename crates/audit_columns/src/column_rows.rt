//! Columns as of the start of a version: the rows of the table of columns, by column and start.

ghost use Rattle.std.specs.Prelude.{◌≡◌, IsSorted, IfOk, OnOk, map, option_map};
ghost use Rattle.spec_model.specs.Keys.{value_at};
ghost use Rattle.spec_model.specs.Lists.{sorted};
ghost use Rattle.spec_model.specs.Rows.{EventId as EventOf, value_or_null};
ghost use Rattle.spec_model.specs.SystemTables.{columns_columns, first_tables};
ghost use Rattle.spec_verify.specs.Versions as definition;
ghost use Rattle.spec_verify.specs.Versions.{column_as_of, says_not_null};
ghost use Rattle.audit_columns.specs.ColumnRows as spec;
ghost use Rattle.audit_columns.specs.Positions.{rank_of};

use crate::columns::{has_columns, respects_not_null};
use crate::positions::{Positions, Rank};
use base_types::{Memory, TableId};
use format_image::Image;
use sql_system::first_tables;
use sql_types::{Table, TableDef, TypedValue, Version};
use sql_value::{ColumnDef, Value};
use std::alloc::Global;
use std::cmp::Ordering;
use std::marker::Model;

/// What a row of the table of columns says: of which column of which table, from when on, and whether that is
/// NOT NULL.
#[derive(Clone, Copy, Debug)]
pub struct ColumnRow {
    pub table: i128,
    pub item: i128,
    pub start: Rank,
    pub not_null: bool,
}

/// The rows of the table of columns, by the column that they are about and then by start, with the places of
/// entries. Contracts see the entries and the rows.
#[derive(Debug, Drop)]
pub struct ColumnRows<'a> {
    positions: Positions<'a>,
    rows: &'a [Version],
    by_column: Vec<ColumnRow>,
}

impl<'a> Model for ColumnRows<'a> {
    ghost use Rattle.std.specs.Prelude.{◌≡◌, List};
    ghost use Rattle.sql_types.specs.declared.entry.TxEntry.{TxEntry};
    ghost use Rattle.sql_types.specs.declared.version.Version.{Version};
    ghost use Rattle.audit_columns.specs.ColumnRows.{sorted_rows};

    ghost Value = { List TxEntry × List Version };

    ghost view = { λ c. (c.positions, c.rows.now) };

    ghost invariant = { λ c. c.by_column.items ≡ sorted_rows c.positions c.rows.now };
}

impl<'a> ColumnRows<'a> {
    /// Those of the image. Sorts them once, and the ids of the entries.
    pub fn of(alloc: Global, image: &'a Image) -> Result<ColumnRows<'a>, Memory>
        ensures { IfOk result
            (λ made. made ≡ (image.now.entries, definition.rows_of_columns image.now.tables)) }
    {
        let system = first_tables(alloc)?;
        let positions = Positions::of(alloc, image.entries.as_slice())?;
        let rows = rows_of_columns(image);
        let by_column = sorted_rows(alloc, &positions, columns_of(&system), rows)?;
        Ok(ColumnRows {
            positions,
            rows,
            by_column,
        })
    }

    /// The places of entries.
    pub fn positions(&self) -> &Positions<'a>
        ensures { result.now ≡ self.now.0 }
    {
        &self.positions
    }

    /// Whether column `item` of the table, counted from 1, is NOT NULL by the last row about it that started
    /// before `at`; none, where there is no such row. Takes an ordered search.
    fn not_null_as_of(&self, table: TableId, item: usize, at: Rank) -> Option<bool>
        ensures { (event : EventOf) → at ≡ rank_of self.now.0 event → result
            ≡ option_map says_not_null (column_as_of self.now.0 self.now.1 table item event) }
    {
        let target = row_at(table, item, at);
        not_null_by(&target, last_before(&self.by_column, &target))
    }

    /// Whether NULL stands where it may in a version of this table that starts at `at`.
    pub fn respects_columns(&self, def: &TableDef, version: &Version, at: Rank) -> bool
        requires { at ≡ rank_of self.now.0 version.now.start }
        ensures { result ≡ definition.respects_columns self.now.0 self.now.1 def.now version.now }
    {
        let values = version.values.as_slice();
        if def.id <= COLUMNS_ID {
            respects_not_null(def.columns.as_slice(), values)
        } else {
            self.respects_rows(def.id, values, at)
        }
    }

    fn respects_rows(&self, table: TableId, values: &[Option<TypedValue>], at: Rank) -> bool
        ensures { (event : EventOf) → at ≡ rank_of self.now.0 event → result
            ≡ definition.respects_from self.now.0 self.now.1 table 1 event values.now }
    {
        for (place, value) in values.iter().enumerate() {
            if !takes(self.not_null_as_of(table, place + 1, at), value) {
                return false;
            }
        }
        true
    }
}

/// The id of the table of columns; the tables up to it are the system's.
const COLUMNS_ID: TableId = 2;

/// The columns of the table of columns, the second of the system's.
#[tactic(auto, unfolding(spec_model::specs::SystemTables::first_tables))]
fn columns_of(system: &[Table]) -> &[ColumnDef]
    requires { system.now ≡ first_tables }
    ensures { result.now ≡ columns_columns }
{
    match system {
        [_, columns, ..] => columns.def.columns.as_slice(),
        _ => &[],
    }
}

/// The base rows of the table of columns, the second of an image.
fn rows_of_columns(image: &Image) -> &[Version]
    ensures { result.now ≡ definition.rows_of_columns image.now.tables }
{
    match image.tables.as_slice() {
        [_, columns, ..] => columns.base.as_slice(),
        _ => &[],
    }
}

fn takes(not_null: Option<bool>, value: &Option<TypedValue>) -> bool
    ensures { result ≡ spec.takes_by not_null value.now }
{
    match not_null {
        None => value.is_none(),
        Some(not_null) => value.is_some() || !not_null,
    }
}

fn not_null_by(target: &ColumnRow, row: Option<ColumnRow>) -> Option<bool>
    ensures { result ≡ spec.not_null_by target.now row }
{
    match row {
        Some(row) if row.table == target.table && row.item == target.item => Some(row.not_null),
        _ => None,
    }
}

/// What stands in the order where rows about the column that start at this rank do.
fn row_at(table: TableId, item: usize, at: Rank) -> ColumnRow
    ensures { result ≡ spec.row_at table item at }
{
    ColumnRow {
        table: i128::from(table),
        item: item as i128,
        start: at,
        not_null: false,
    }
}

/// The last of these rows that comes before the target.
fn last_before(rows: &[ColumnRow], target: &ColumnRow) -> Option<ColumnRow>
    requires { IsSorted spec.row_cmp rows.now }
    ensures { result ≡ spec.last_before rows.now target.now }
{
    let count = rows.partition_point(|row| compare_rows(row, target).is_lt());
    if count == 0 {
        return None;
    }
    Some(rows[count - 1])
}

/// By column, and then by start.
fn compare_rows(a: &ColumnRow, b: &ColumnRow) -> Ordering
    ensures { result ≡ spec.row_cmp a.now b.now }
{
    a.table
        .cmp(&b.table)
        .then(a.item.cmp(&b.item))
        .then(a.start.cmp(&b.start))
}

/// Those of these rows that have the columns of the table of columns, by column and start.
fn sorted_rows(
    alloc: Global,
    positions: &Positions,
    columns: &[ColumnDef],
    rows: &[Version],
) -> Result<Vec<ColumnRow>, Memory>
    requires { columns.now ≡ columns_columns }
    ensures { IfOk result (λ sorted. sorted.items ≡ spec.sorted_rows positions.now rows.now) }
{
    let mut sorted = read_rows(alloc, positions, columns, rows)?;
    sort_by_column(&mut sorted)?;
    Ok(sorted)
}

fn sort_by_column(rows: &mut Vec<ColumnRow>) -> Result<(), Memory>
    ensures { OnOk result (rows.new.items ≡ sorted spec.row_cmp rows.old.items) }
{
    rows.sort_by(|a, b| compare_rows(a, b))?;
    Ok(())
}

fn read_rows(
    alloc: Global,
    positions: &Positions,
    columns: &[ColumnDef],
    rows: &[Version],
) -> Result<Vec<ColumnRow>, Memory>
    ensures { IfOk result (λ read. read.items ≡ spec.read_rows positions.now columns.now rows.now) }
{
    let mut read = Vec::new(alloc);
    for row in rows {
        if let Some(row) = read_row(positions, columns, row) {
            read.push(row)?;
        }
    }
    Ok(read)
}

/// What the row says of a column, if it has the columns and is about one.
fn read_row(positions: &Positions, columns: &[ColumnDef], row: &Version) -> Option<ColumnRow>
    ensures { result ≡ spec.read_row positions.now columns.now row.now }
{
    let values = row.values.as_slice();
    if !has_columns(columns, values) {
        return None;
    }
    match (number_at(values, 0), number_at(values, 1)) {
        (Some(table), Some(item)) => Some(ColumnRow {
            table,
            item,
            start: positions.rank_of(row.start),
            not_null: number_at(values, 7) == Some(0),
        }),
        _ => None,
    }
}

fn number_at(values: &[Option<TypedValue>], place: usize) -> Option<i128>
    ensures { result ≡ spec.number_in (value_at (map value_or_null values.now) place) }
{
    match values.get(place) {
        Some(Some(typed)) => number_in(&typed.value),
        Some(None) | None => None,
    }
}

fn number_in(value: &Value) -> Option<i128>
    ensures { result ≡ spec.number_in value.now }
{
    match value {
        Value::Num { v, .. } => Some(*v),
        Value::Null | Value::Text(_) | Value::Bytes(_) | Value::Date(_) => None,
    }
}
