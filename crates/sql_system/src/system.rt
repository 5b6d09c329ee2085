//! The tables of the system: their definitions, and the starts of the rows that they have of each table and
//! index, and of what ALTER TABLE and DROP TABLE change.

ghost use Rattle.std.specs.Prelude.{◌≡◌, ◌+◌, IfOk, map, length};
ghost use Rattle.spec_model.specs.Alter.{altered_table, gone_table};
ghost use Rattle.spec_model.specs.Effect as effects;
ghost use Rattle.spec_model.specs.Lists.{numbered};
ghost use Rattle.spec_model.specs.Rows.{stored_row as spec_stored_row};
ghost use Rattle.spec_model.specs.Changes as changes;
ghost use Rattle.spec_model.specs.SystemTables as spec;
ghost use Rattle.sql_system.specs.Started.{started_rows};

use crate::system_rows::{changed_column_row, changed_table_row, column_row, index_row, table_row};
use base_types::{Items, Memory, Name, TableId};
use sql_parts::stored_row;
use sql_types::{Change, IndexDef, Row, Table, TableDef};
use sql_value::{ColumnDef, SqlType, TableKind};
use std::alloc::Global;

/// The type of names.
const NAME: SqlType = SqlType::NVarChar { n: 128 };

/// The columns of the table of tables.
const TABLES_COLUMNS: [(&str, SqlType, bool, u8); 6] = [
    ("table_id", SqlType::Int, false, 1),
    ("change", SqlType::Int, false, 2),
    ("name", NAME, false, 0),
    ("kind", SqlType::Int, false, 0),
    ("history_name", NAME, true, 0),
    ("view_name", NAME, false, 0),
];

/// The columns of the table of columns.
const COLUMNS_COLUMNS: [(&str, SqlType, bool, u8); 9] = [
    ("table_id", SqlType::Int, false, 1),
    ("item", SqlType::Int, false, 2),
    ("change", SqlType::Int, false, 3),
    ("name", NAME, false, 0),
    ("type_code", SqlType::Int, false, 0),
    ("p", SqlType::Int, false, 0),
    ("s", SqlType::Int, false, 0),
    ("nullable", SqlType::Bit, false, 0),
    ("key_position", SqlType::Int, false, 0),
];

/// The two tables of the system, without rows.
#[tactic(auto, unfolding(spec_model::specs::SystemTables::first_tables))]
pub fn first_tables(alloc: Global) -> Result<Vec<Table>, Memory>
    ensures { IfOk result (λ tables. tables.items ≡ spec.first_tables) }
{
    let tables = tables_table(alloc)?;
    let columns = columns_table(alloc)?;
    Ok(Vec::from_array(alloc, [tables, columns])?)
}

fn tables_table(alloc: Global) -> Result<Table, Memory>
    ensures { IfOk result (λ table. table ≡ spec.empty_table spec.tables_def) }
{
    let columns = tables_columns(alloc)?;
    system_table(alloc, 1, "sys_ledger_tables", columns)
}

fn columns_table(alloc: Global) -> Result<Table, Memory>
    ensures { IfOk result (λ table. table ≡ spec.empty_table spec.columns_def) }
{
    let columns = columns_columns(alloc)?;
    system_table(alloc, 2, "sys_ledger_columns", columns)
}

/// A table of the system, without rows.
fn system_table(
    alloc: Global,
    id: TableId,
    name: &str,
    columns: Items<ColumnDef>,
) -> Result<Table, Memory>
    ensures { IfOk result (λ table. table ≡ spec.empty_table (spec.system_def id name.now columns)) }
{
    let def = TableDef {
        id,
        name: Name::of_str(alloc, name)?,
        kind: TableKind::AppendOnly,
        gone: false,
        history: Name::of_str(alloc, "")?,
        view: Name::of_str(alloc, "")?,
        columns,
        dropped: Items::new(alloc),
        indexes: Items::new(alloc),
    };
    Ok(Table {
        def,
        versions: Items::new(alloc),
    })
}

fn tables_columns(alloc: Global) -> Result<Items<ColumnDef>, Memory>
    ensures { IfOk result (λ columns. columns ≡ spec.tables_columns) }
{
    columns_of(alloc, &TABLES_COLUMNS)
}

fn columns_columns(alloc: Global) -> Result<Items<ColumnDef>, Memory>
    ensures { IfOk result (λ columns. columns ≡ spec.columns_columns) }
{
    columns_of(alloc, &COLUMNS_COLUMNS)
}

fn columns_of(
    alloc: Global,
    described: &[(&str, SqlType, bool, u8)],
) -> Result<Items<ColumnDef>, Memory>
    ensures { IfOk result (λ columns. columns ≡ map (λ d. spec.a_column d.0.now d.1 d.2 d.3) described.now) }
{
    let mut columns = Vec::with_capacity(alloc, described.len())?;
    for (name, ty, nullable, key_position) in described {
        columns.push(a_column(alloc, name, *ty, *nullable, *key_position)?)?;
    }
    Ok(Items::from_vec(columns))
}

fn a_column(
    alloc: Global,
    name: &str,
    ty: SqlType,
    nullable: bool,
    key_position: u8,
) -> Result<ColumnDef, Memory>
    ensures { IfOk result (λ column. column ≡ spec.a_column name.now ty nullable key_position) }
{
    Ok(ColumnDef {
        name: Name::of_str(alloc, name)?,
        ty,
        nullable,
        key_position,
    })
}

/// The start of a row.
fn start_of(alloc: Global, columns: &[ColumnDef], row: Row) -> Result<Change, Memory>
    ensures { IfOk result (λ change. change ≡ changes.Starts (spec_stored_row columns.now row)) }
{
    Ok(Change::Starts(stored_row(alloc, columns, row)?))
}

/// The start of a new table's row in the table of tables.
pub fn table_start(alloc: Global, def: &TableDef) -> Result<Items<Change>, Memory>
    ensures { IfOk result (λ changes. changes ≡ effects.table_start def.now) }
{
    let columns = tables_columns(alloc)?;
    let start = start_of(alloc, columns.as_slice(), table_row(alloc, def)?)?;
    Ok(Items::from_vec(Vec::from_array(alloc, [start])?))
}

/// The starts of the rows of a new table's columns, by ordinal, in the table of columns.
#[tactic(auto, unfolding(spec_model::specs::SystemTables::column_rows))]
pub fn column_starts(alloc: Global, def: &TableDef) -> Result<Items<Change>, Memory>
    ensures { IfOk result (λ changes. changes ≡ effects.column_starts (spec.column_rows def.now)) }
{
    let stored = columns_columns(alloc)?;
    starts_of_columns(alloc, stored.as_slice(), def.id, def.columns.as_slice())
}

fn starts_of_columns(
    alloc: Global,
    stored: &[ColumnDef],
    id: TableId,
    columns: &[ColumnDef],
) -> Result<Items<Change>, Memory>
    ensures { IfOk result (λ changes. changes
        ≡ started_rows stored.now (map (spec.column_row id) (numbered 1 columns.now))) }
{
    let mut starts = Items::new(alloc);
    for place in 0..columns.len() {
        let column = &columns[place];
        starts.push(start_of_column(alloc, stored, id, place + 1, column)?)?;
    }
    Ok(starts)
}

/// The start of the row of the column with this ordinal.
fn start_of_column(
    alloc: Global,
    stored: &[ColumnDef],
    id: TableId,
    ordinal: usize,
    column: &ColumnDef,
) -> Result<Change, Memory>
    ensures { IfOk result (λ change. change
        ≡ changes.Starts (spec_stored_row stored.now (spec.column_row id (ordinal, column.now)))) }
{
    let row = column_row(alloc, id, ordinal, column)?;
    start_of(alloc, stored, row)
}

/// The starts of the rows of a new index of a table, in its order, in the table of columns.
#[tactic(auto, unfolding(spec_model::specs::SystemTables::index_rows))]
pub fn index_starts(
    alloc: Global,
    def: &TableDef,
    index: &IndexDef,
) -> Result<Items<Change>, Memory>
    ensures { IfOk result (λ changes. changes ≡ effects.index_starts def.now index.now) }
{
    let stored = columns_columns(alloc)?;
    starts_of_index(alloc, stored.as_slice(), def, index)
}

fn starts_of_index(
    alloc: Global,
    stored: &[ColumnDef],
    def: &TableDef,
    index: &IndexDef,
) -> Result<Items<Change>, Memory>
    ensures { IfOk result (λ changes.
        changes ≡ started_rows stored.now
        (map (spec.index_row def.now.id (length def.now.indexes + 1) index.now.name)
        (numbered 1 index.now.ordinals))) }
{
    let ordinals = index.ordinals.as_slice();
    let mut starts = Items::new(alloc);
    for place in 0..ordinals.len() {
        let row = index_row(alloc, def, &index.name, place, ordinals[place])?;
        starts.push(start_of(alloc, stored, row)?)?;
    }
    Ok(starts)
}

/// The start of the row that DROP TABLE adds to the table of tables: that of a table as this change leaves it.
pub fn changed_table_start(
    alloc: Global,
    change: u64,
    def: &TableDef,
) -> Result<Items<Change>, Memory>
    ensures { IfOk result (λ changes. changes ≡ (gone_table change def.now).first) }
{
    let columns = tables_columns(alloc)?;
    let row = changed_table_row(alloc, change, def)?;
    let start = start_of(alloc, columns.as_slice(), row)?;
    Ok(Items::from_vec(Vec::from_array(alloc, [start])?))
}

/// The start of the row that ALTER TABLE adds to the table of columns: that of the column with this ordinal as this
/// change leaves it, in a table whose definition is then this one.
pub fn changed_column_start(
    alloc: Global,
    change: u64,
    def: &TableDef,
    ordinal: usize,
    column: &ColumnDef,
) -> Result<Items<Change>, Memory>
    ensures { IfOk result (λ changes. changes
        ≡ (altered_table change (def.now, (ordinal, column.now))).second) }
{
    let stored = columns_columns(alloc)?;
    let row = changed_column_row(alloc, change, def, ordinal, column)?;
    let start = start_of(alloc, stored.as_slice(), row)?;
    Ok(Items::from_vec(Vec::from_array(alloc, [start])?))
}
