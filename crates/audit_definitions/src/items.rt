//! Rows of the tables of the system, compared with what definitions want of them.

ghost use Rattle.std.specs.Prelude.{◌≡◌, ◌<◌, ◌^◌, ◌==◌, ◌+◌, ◌*◌, ◌∷◌, [], pos, length, map, IfOk};
ghost use Rattle.std.specs.List.{list_all, list_any};
ghost use Rattle.std.specs.Ordering.{is_eq};
ghost use Rattle.spec_model.specs.Keys.{same_key};
ghost use Rattle.spec_model.specs.Rows.{number, values_of, value_or_null};
ghost use Rattle.spec_model.specs.Lists.{numbered};
ghost use Rattle.spec_model.specs.SystemTables as system;
ghost use Rattle.law_catalog_rows.specs.Encoded as encoded;
ghost use Rattle.law_catalog_rows.specs.Encoded.{about, is_about, latest_item_rows, rows_of_indexes};
ghost use Rattle.sql_value.specs.Order.{value_cmp};
ghost use Rattle.sql_value.specs.declared.value.Value.TheVariants.{Text as TextOf};
ghost use Rattle.audit_definitions.specs.Numbers.{about_number};
ghost use Rattle.audit_definitions.specs.DefinitionRows.{value_of, rows_in, rows_seen, has_row, is_said, are_said};
ghost use Rattle.audit_definitions.specs.LatestRows.{counted_value, one_nearer, with_zero};

use crate::first_values::table_of;
use crate::rules::has_ordinal;
use base_types::{Memory, Name, TableId};
use sql_types::{IndexDef, TableDef, TypedValue, Version};
use sql_value::{ColumnDef, SqlType, TableKind, Value, compare, type_parts};
use std::alloc::Global;

/// A value that a row is to have.
#[derive(Clone, Copy)]
pub enum ExpectedValue<'a> {
    Null,
    Number(i128),
    Name(&'a Name),
}

fn is_value(wanted: ExpectedValue, stored: &Option<TypedValue>) -> bool
    ensures { result ≡ is_eq (value_cmp (value_of wanted.entry) (value_or_null stored.now)) }
{
    match wanted {
        ExpectedValue::Null => is_equal(&Value::Null, stored),
        ExpectedValue::Number(v) => is_equal(&Value::Num { v, s: 0 }, stored),
        ExpectedValue::Name(name) => is_name(name, stored),
    }
}

fn is_equal(value: &Value, stored: &Option<TypedValue>) -> bool
    ensures { result ≡ is_eq (value_cmp value.now (value_or_null stored.now)) }
{
    match stored {
        Some(typed) => compare(value, &typed.value).is_eq(),
        None => compare(value, &Value::Null).is_eq(),
    }
}

#[tactic(auto, unfolding(sql_value::specs::Order::value_cmp))]
fn is_name(name: &Name, stored: &Option<TypedValue>) -> bool
    ensures { result ≡ is_eq (value_cmp (TextOf name.now) (value_or_null stored.now)) }
{
    match stored {
        Some(typed) => is_text(name, &typed.value),
        None => false,
    }
}

#[tactic(auto, unfolding(sql_value::specs::Order::value_cmp))]
fn is_text(name: &Name, value: &Value) -> bool
    ensures { result ≡ is_eq (value_cmp (TextOf name.now) value.now) }
{
    match value {
        Value::Text(text) => name.bytes().cmp(text.bytes()).is_eq(),
        Value::Null | Value::Num { .. } | Value::Bytes(_) | Value::Date(_) => false,
    }
}

/// Whether these are the values of the row, and no more, where 0 counts at one place, if one is given.
#[tactic(auto, unfolding(spec_model::specs::Keys::same_key, spec_model::specs::Keys::key_cmp), using(crate::proofs::ZeroAt::zero_step))]
fn is_row(wanted: &[ExpectedValue], row: &[Option<TypedValue>], zero_at: Option<usize>) -> bool
    ensures { result ≡ same_key (map value_of wanted.now) (with_zero zero_at (map value_or_null row.now)) }
{
    let mut wanted = wanted;
    let mut row = row;
    let mut zero_at = zero_at;
    'each: loop {
        match wanted {
            [] => return row.is_empty(),
            [item, more @ ..] => match row {
                [] => return false,
                [value, others @ ..] => {
                    if !is_counted(*item, zero_at, value) {
                        return false;
                    }
                    wanted = more;
                    row = others;
                    zero_at = one_nearer(zero_at);
                }
            },
        }
    }
}

/// Whether it is the value, or 0, if that counts here.
fn is_counted(wanted: ExpectedValue, zero_at: Option<usize>, stored: &Option<TypedValue>) -> bool
    ensures { result
        ≡ is_eq (value_cmp (value_of wanted.entry) (counted_value zero_at (value_or_null stored.now))) }
{
    match zero_at {
        Some(0) => is_zero(wanted),
        _ => is_value(wanted, stored),
    }
}

fn is_zero(wanted: ExpectedValue) -> bool
    ensures { result ≡ is_eq (value_cmp (value_of wanted.entry) (number 0)) }
{
    let zero = Some(TypedValue {
        ty: SqlType::Int,
        value: Value::Num { v: 0, s: 0 },
    });
    is_value(wanted, &zero)
}

/// The place as it is counted behind the first value; none, where it was the first.
fn one_nearer(place: Option<usize>) -> Option<usize>
    ensures { result ≡ one_nearer place }
{
    match place {
        Some(place) => place.checked_sub(1),
        None => None,
    }
}

fn is_table(table: Option<i128>, id: TableId) -> bool
    ensures { result ≡ about_number (pos id) table }
{
    match table {
        Some(table) => table == i128::from(id),
        None => false,
    }
}

fn is_about(id: TableId, version: &Version) -> bool
    ensures { result ≡ is_about (pos id) (values_of version.now) }
{
    is_table(table_of(version), id)
}

/// The rows about the table.
pub fn system_rows_of<'a>(
    alloc: Global,
    versions: &'a [Version],
    id: TableId,
) -> Result<Vec<&'a Version>, Memory>
    ensures { IfOk result (λ rows. rows_seen rows.items ≡ about (pos id) (rows_in versions.now)) }
{
    let mut rows = Vec::new(alloc);
    for version in versions {
        if is_about(id, version) {
            rows.push(version)?;
        }
    }
    Ok(rows)
}

/// Whether one of the rows has these values.
fn has_row(rows: &[&Version], wanted: &[ExpectedValue]) -> bool
    ensures { result ≡ has_row (rows_seen rows.now) (map value_of wanted.now) }
{
    for row in rows {
        if is_row(wanted, row.values.as_slice(), None) {
            return true;
        }
    }
    false
}

/// Whether one of the rows says this, whatever its change, which stands behind the place.
fn is_said(rows: &[&Version], place: u8, wanted: &[ExpectedValue]) -> bool
    ensures { result ≡ is_said place (rows_seen rows.now) (map value_of wanted.now) }
{
    let change = usize::from(place) + 1;
    for row in rows {
        if is_row(wanted, row.values.as_slice(), Some(change)) {
            return true;
        }
    }
    false
}

fn kind_code(kind: TableKind) -> i128
    ensures { result ≡ pos (system.kind_code kind) }
{
    match kind {
        TableKind::AppendOnly => 1,
        TableKind::Updatable => 2,
    }
}

fn history_of(def: &TableDef) -> ExpectedValue<'_>
    ensures { value_of result ≡ system.history_value def.now.kind def.now.history }
{
    match def.kind {
        TableKind::AppendOnly => ExpectedValue::Null,
        TableKind::Updatable => ExpectedValue::Name(&def.history),
    }
}

/// The kind in the row of the table: 3 or 4 where it was dropped.
fn kind_in_row(def: &TableDef) -> i128
    ensures { result ≡ pos (encoded.kind_in_row def.now) }
{
    let code = kind_code(def.kind);
    if def.gone { code + 2 } else { code }
}

#[tactic(auto, unfolding(law_catalog_rows::specs::Encoded::latest_table_row))]
fn latest_table_row(def: &TableDef) -> [ExpectedValue<'_>; 6]
    ensures { map value_of result ≡ encoded.latest_table_row def.now }
{
    [
        ExpectedValue::Number(def.id.into()),
        ExpectedValue::Number(0),
        ExpectedValue::Name(&def.name),
        ExpectedValue::Number(kind_in_row(def)),
        history_of(def),
        ExpectedValue::Name(&def.view),
    ]
}

/// Whether there is one row, which says the definition.
pub(crate) fn has_table_row(rows: &[&Version], def: &TableDef) -> bool
    ensures { result ≡ are_said 0 (rows_seen rows.now) (encoded.latest_table_row def.now ∷ []) }
{
    rows.len() == 1 && is_said(rows, 0, &latest_table_row(def))
}

fn bit(b: bool) -> i128
    ensures { result ≡ pos (system.bit b) }
{
    if b { 1 } else { 0 }
}

/// The row of the column at this place, counted from 0, with this key position.
fn column_row_at(
    id: TableId,
    place: usize,
    column: &ColumnDef,
    position: i128,
) -> [ExpectedValue<'_>; 9]
    ensures { map value_of result ≡ encoded.column_row_at id (place + 1, column.now) position }
{
    let (code, first, second) = type_parts(column.ty);
    [
        ExpectedValue::Number(id.into()),
        ExpectedValue::Number(place as i128 + 1),
        ExpectedValue::Number(0),
        ExpectedValue::Name(&column.name),
        ExpectedValue::Number(code.into()),
        ExpectedValue::Number(first.into()),
        ExpectedValue::Number(second.into()),
        ExpectedValue::Number(bit(column.nullable)),
        ExpectedValue::Number(position),
    ]
}

/// The key position in the row of the column at this place: -1 where it was dropped.
fn position_in_row(def: &TableDef, place: usize, column: &ColumnDef) -> i128
    ensures { result ≡ encoded.position_in_row def.now (place + 1, column.now) }
{
    if has_ordinal(def.dropped.as_slice(), place) {
        -1
    } else {
        column.key_position.into()
    }
}

/// Whether one of the rows says the column at this place, counted from 0.
fn has_latest_column_row(
    rows: &[&Version],
    def: &TableDef,
    place: usize,
    column: &ColumnDef,
) -> bool
    ensures { result ≡ is_said 1 (rows_seen rows.now)
        (encoded.latest_column_row def.now (place + 1, column.now)) }
{
    let position = position_in_row(def, place, column);
    is_said(rows, 1, &column_row_at(def.id, place, column, position))
}

fn has_column_rows(rows: &[&Version], def: &TableDef) -> bool
    ensures { result ≡ list_all (is_said 1 (rows_seen rows.now))
        (map (encoded.latest_column_row def.now) (numbered 1 def.now.columns)) }
{
    for (place, column) in def.columns.as_slice().iter().enumerate() {
        if !has_latest_column_row(rows, def, place, column) {
            return false;
        }
    }
    true
}

/// The row of the part at this place, counted from 0, of an index behind so many others.
fn part_row(
    id: TableId,
    others: usize,
    name: &Name,
    place: usize,
    ordinal: u16,
) -> [ExpectedValue<'_>; 9]
    ensures { map value_of result ≡ system.index_row id (others + 1) name.now (place + 1, ordinal) }
{
    [
        ExpectedValue::Number(id.into()),
        ExpectedValue::Number(1000 * (others as i128 + 1) + (place as i128 + 1)),
        ExpectedValue::Number(0),
        ExpectedValue::Name(name),
        ExpectedValue::Number(0),
        ExpectedValue::Number(0),
        ExpectedValue::Number(0),
        ExpectedValue::Number(0),
        ExpectedValue::Number(ordinal.into()),
    ]
}

/// Whether one of the rows is that of the part at this place, counted from 0, of an index behind so many others.
pub fn has_part_row(
    rows: &[&Version],
    id: TableId,
    others: usize,
    name: &Name,
    place: usize,
    ordinal: u16,
) -> bool
    ensures { result ≡ has_row (rows_seen rows.now)
        (system.index_row id (others + 1) name.now (place + 1, ordinal)) }
{
    has_row(rows, &part_row(id, others, name, place, ordinal))
}

/// Whether one of the rows says the part at this place, whatever its change.
fn has_latest_part_row(
    rows: &[&Version],
    id: TableId,
    others: usize,
    name: &Name,
    place: usize,
    ordinal: u16,
) -> bool
    ensures { result ≡ is_said 1 (rows_seen rows.now)
        (system.index_row id (others + 1) name.now (place + 1, ordinal)) }
{
    is_said(rows, 1, &part_row(id, others, name, place, ordinal))
}

#[tactic(auto, unfolding(spec_model::specs::SystemTables::index_rows))]
fn has_part_rows(rows: &[&Version], id: TableId, others: usize, index: &IndexDef) -> bool
    ensures { result ≡ list_all (is_said 1 (rows_seen rows.now))
        (system.index_rows id (others + 1) index.now) }
{
    for (place, ordinal) in index.ordinals.as_slice().iter().enumerate() {
        if !has_latest_part_row(rows, id, others, &index.name, place, *ordinal) {
            return false;
        }
    }
    true
}

fn has_index_rows(rows: &[&Version], def: &TableDef) -> bool
    ensures { result ≡ list_all (is_said 1 (rows_seen rows.now))
        (rows_of_indexes def.now.id 1 def.now.indexes) }
{
    for (others, index) in def.indexes.as_slice().iter().enumerate() {
        if !has_part_rows(rows, def.id, others, index) {
            return false;
        }
    }
    true
}

/// Whether so many rows are those of the columns and of the parts of the indexes.
#[tactic(auto, unfolding(law_catalog_rows::specs::Encoded::latest_item_rows))]
fn are_so_many(count: usize, def: &TableDef) -> bool
    ensures { result ≡ (count == length (latest_item_rows def.now)) }
{
    let columns = def.columns.len();
    if count < columns {
        return false;
    }
    let mut left = count - columns;
    for index in def.indexes.as_slice() {
        let parts = index.ordinals.len();
        if left < parts {
            return false;
        }
        left -= parts;
    }
    left == 0
}

/// Whether the rows say the columns and the indexes of the definition, and no more.
#[tactic(auto, unfolding(law_catalog_rows::specs::Encoded::latest_item_rows))]
pub(crate) fn has_item_rows(rows: &[&Version], def: &TableDef) -> bool
    ensures { result ≡ are_said 1 (rows_seen rows.now) (latest_item_rows def.now) }
{
    are_so_many(rows.len(), def) && has_column_rows(rows, def) && has_index_rows(rows, def)
}
