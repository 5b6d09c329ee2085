//! The rows that the tables of the system have of tables, columns and indexes.

ghost use Rattle.std.specs.Prelude.{◌≡◌, ◌+◌, ◌*◌, IfOk, length};
ghost use Rattle.sql_value.specs.declared.value.Value.TheVariants.{Text as TextOf};
ghost use Rattle.spec_model.specs.Rows.{number as number_of};
ghost use Rattle.spec_model.specs.SystemTables as spec;

use base_types::{Items, Memory, Name, TableId, Text};
use sql_parts::{is_dropped, number};
use sql_types::{Row, TableDef};
use sql_value::{ColumnDef, TableKind, Value, type_parts};
use std::alloc::Global;

/// How far the items of one index lie from those of the next.
const INDEX_ITEMS: i128 = 1000;

/// How far the kind of a dropped table lies from the one that it had.
const DROPPED: u64 = 2;

/// A name as a value.
fn name_value(alloc: Global, name: &Name) -> Result<Value, Memory>
    ensures { IfOk result (λ value. value ≡ TextOf name.now) }
{
    Ok(Value::Text(Text::of_str(alloc, name.as_str())?))
}

fn kind_code(kind: TableKind) -> u64
    ensures { result ≡ spec.kind_code kind }
{
    match kind {
        TableKind::AppendOnly => 1,
        TableKind::Updatable => 2,
    }
}

/// The name of the history, which an append-only table lacks.
fn history_value(alloc: Global, kind: TableKind, name: &Name) -> Result<Value, Memory>
    ensures { IfOk result (λ value. value ≡ spec.history_value kind name.now) }
{
    match kind {
        TableKind::AppendOnly => Ok(Value::Null),
        TableKind::Updatable => name_value(alloc, name),
    }
}

/// The row of a table, by this change and with this kind.
fn table_row_with(alloc: Global, change: u64, kind: u64, def: &TableDef) -> Result<Row, Memory>
    ensures { IfOk result (λ row. row ≡ spec.table_row_with change kind def.now) }
{
    let id = number(def.id.into());
    let name = name_value(alloc, &def.name)?;
    let history = history_value(alloc, def.kind, &def.history)?;
    let view = name_value(alloc, &def.view)?;
    let row = [id, number(change), name, number(kind), history, view];
    Ok(Items::from_vec(Vec::from_array(alloc, row)?))
}

/// The row of a new table.
#[tactic(auto, unfolding(spec_model::specs::SystemTables::table_row))]
pub(crate) fn table_row(alloc: Global, def: &TableDef) -> Result<Row, Memory>
    ensures { IfOk result (λ row. row ≡ spec.table_row def.now) }
{
    table_row_with(alloc, 0, kind_code(def.kind), def)
}

/// The kind in the row of a table: 3 or 4 where it was dropped.
fn kind_in_row(def: &TableDef) -> u64
    ensures { result ≡ spec.kind_in_row def.now }
{
    let code = kind_code(def.kind);
    if def.gone { code + DROPPED } else { code }
}

/// The row of a table as this change leaves it.
#[tactic(auto, unfolding(spec_model::specs::SystemTables::changed_table_row))]
pub(crate) fn changed_table_row(alloc: Global, change: u64, def: &TableDef) -> Result<Row, Memory>
    ensures { IfOk result (λ row. row ≡ spec.changed_table_row change def.now) }
{
    table_row_with(alloc, change, kind_in_row(def), def)
}

fn bit(b: bool) -> u64
    ensures { result ≡ spec.bit b }
{
    if b { 1 } else { 0 }
}

/// The row of the column with this ordinal, by this change and with this key position.
fn column_row_with(
    alloc: Global,
    change: u64,
    position: i128,
    id: TableId,
    ordinal: usize,
    column: &ColumnDef,
) -> Result<Row, Memory>
    ensures { IfOk result (λ row. row ≡ spec.column_row_with change position id (ordinal, column.now)) }
{
    let name = name_value(alloc, &column.name)?;
    let (code, first, second) = type_parts(column.ty);
    let row = [
        number(id.into()),
        number(ordinal as u64),
        number(change),
        name,
        number(code.into()),
        number(first.into()),
        number(second.into()),
        number(bit(column.nullable)),
        Value::Num { v: position, s: 0 },
    ];
    Ok(Items::from_vec(Vec::from_array(alloc, row)?))
}

/// The row of the column with this ordinal, of a new table.
pub(crate) fn column_row(
    alloc: Global,
    id: TableId,
    ordinal: usize,
    column: &ColumnDef,
) -> Result<Row, Memory>
    ensures { IfOk result (λ row. row ≡ spec.column_row id (ordinal, column.now)) }
{
    column_row_with(alloc, 0, column.key_position.into(), id, ordinal, column)
}

/// The key position in the row of the column with this ordinal: -1 where it was dropped.
fn position_in_row(def: &TableDef, ordinal: usize, column: &ColumnDef) -> i128
    ensures { result ≡ spec.position_in_row def.now (ordinal, column.now) }
{
    if is_dropped(def, ordinal) {
        return -1;
    }
    column.key_position.into()
}

/// The row of the column with this ordinal, as this change leaves it.
#[tactic(auto, unfolding(spec_model::specs::SystemTables::changed_column_row))]
pub(crate) fn changed_column_row(
    alloc: Global,
    change: u64,
    def: &TableDef,
    ordinal: usize,
    column: &ColumnDef,
) -> Result<Row, Memory>
    ensures { IfOk result (λ row. row ≡ spec.changed_column_row change def.now (ordinal, column.now)) }
{
    let position = position_in_row(def, ordinal, column);
    column_row_with(alloc, change, position, def.id, ordinal, column)
}

/// The item of the part at a place, counted from 0, of the index behind so many others of its table.
fn index_item(others: usize, place: usize) -> Value
    ensures { result ≡ number_of (1000 * (others + 1) + (place + 1)) }
{
    let item = INDEX_ITEMS * (others as i128 + 1) + (place as i128 + 1);
    Value::Num { v: item, s: 0 }
}

/// The row of the part at this place, counted from 0, of a new index of the table.
pub(crate) fn index_row(
    alloc: Global,
    def: &TableDef,
    name: &Name,
    place: usize,
    ordinal: u16,
) -> Result<Row, Memory>
    ensures { IfOk result (λ row. row ≡ spec.index_row def.now.id (length def.now.indexes + 1) name.now
        (place + 1, ordinal)) }
{
    let name = name_value(alloc, name)?;
    let row = [
        number(def.id.into()),
        index_item(def.indexes.len(), place),
        number(0),
        name,
        number(0),
        number(0),
        number(0),
        number(0),
        number(ordinal.into()),
    ];
    Ok(Items::from_vec(Vec::from_array(alloc, row)?))
}
