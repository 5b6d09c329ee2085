//! Definitions as far as rows of the system's tables tell them.

ghost use Rattle.std.specs.Prelude.{◌≡◌, ◌++◌, ◌+◌, ◌∷◌, [], pos, IfOk, OnOk};
ghost use Rattle.spec_model.specs.Rows.{values_of};
ghost use Rattle.audit_definitions.specs.DefinitionRows.{row_seen, rows_in, rows_seen};
ghost use Rattle.spec_asof.specs.DefTold as spec;
ghost use Rattle.audit_asof.specs.Told.{columns_from, parts_from, indexes_from};

use crate::rows::{last_row, text_at};
use audit_definitions::{has_part_row, number_at, system_rows_of};
use base_types::{Items, Memory, Name, TableId};
use sql_types::{IndexDef, TableDef, Version};
use sql_value::{ColumnDef, TableKind};
use std::alloc::Global;

/// What these rows of the two system tables tell of the definition: its names, its kind, and the columns, the indexes
/// and the parts of indexes that have their rows.
pub(crate) fn def_told(
    alloc: Global,
    first: &[Version],
    second: &[Version],
    def: TableDef,
) -> Result<TableDef, Memory>
    ensures { IfOk result (λ told. told ≡ spec.def_told (rows_in first.now) (rows_in second.now) def) }
{
    let mut told = def;
    match tell_def(alloc, first, second, &mut told) {
        Ok(()) => Ok(told),
        Err(Memory) => {
            drop(told);
            Err(Memory)
        }
    }
}

// The definition is borrowed here, and held by the caller alone: each function that holds one has to prove at each
// want of memory how all its parts are dropped.
#[tactic(auto, unfolding(spec_asof::specs::DefTold::def_told))]
fn tell_def(
    alloc: Global,
    first: &[Version],
    second: &[Version],
    def: &mut TableDef,
) -> Result<(), Memory>
    ensures { OnOk result (def.new ≡ spec.def_told (rows_in first.now) (rows_in second.now) def.old) }
{
    let tables = system_rows_of(alloc, first, def.id)?;
    let row = last_row(&tables, 0, def.id.into());
    let items = system_rows_of(alloc, second, def.id)?;
    tell_items(alloc, &items, def)?;
    tell_table(alloc, row, def)?;
    Ok(())
}

/// Leaves the columns, the indexes and the parts of indexes that have their rows among these.
fn tell_items(alloc: Global, rows: &[&Version], def: &mut TableDef) -> Result<(), Memory>
    ensures { OnOk result (def.new ≡ spec.items_told (rows_seen rows.now) def.old) }
{
    def.columns = columns_told(alloc, rows, def.columns.as_slice())?;
    def.dropped = dropped_told(alloc, rows, def.dropped.as_slice())?;
    def.indexes = indexes_told(alloc, rows, def.id, def.indexes.as_slice())?;
    Ok(())
}

/// Gives the definition the names and the kind that the row of its table says, and marks it as dropped if the row says
/// so.
fn tell_table(alloc: Global, row: Option<&Version>, def: &mut TableDef) -> Result<(), Memory>
    ensures { OnOk result (def.new ≡ spec.table_told (row_seen row.entry) def.old) }
{
    if let Some(row) = row {
        def.name = text_at(alloc, row, 2)?;
        def.kind = kind_numbered(number_at(row, 3));
        def.gone = number_at(row, 3).cmp(&2).is_gt();
        def.history = text_at(alloc, row, 4)?;
        def.view = text_at(alloc, row, 5)?;
    }
    Ok(())
}

/// The kind that the number in a table's row stands for.
fn kind_numbered(number: i128) -> TableKind
    ensures { result ≡ spec.kind_numbered number }
{
    match number {
        1 | 3 => TableKind::AppendOnly,
        _ => TableKind::Updatable,
    }
}

fn columns_told(
    alloc: Global,
    rows: &[&Version],
    columns: &[ColumnDef],
) -> Result<Items<ColumnDef>, Memory>
    ensures { IfOk result (λ told. told ≡ spec.columns_told (rows_seen rows.now) columns.now) }
{
    let mut told = Vec::new(alloc);
    for (place, column) in columns.iter().enumerate() {
        tell_column(alloc, rows, place, column, &mut told)?;
    }
    Ok(Items::from_vec(told))
}

/// Adds the column at this place, counted from 0, as its last row says it, if it has one.
fn tell_column(
    alloc: Global,
    rows: &[&Version],
    place: usize,
    column: &ColumnDef,
    told: &mut Vec<ColumnDef>,
) -> Result<(), Memory>
    ensures { OnOk result (told.new.items
        ≡ told.old.items ++ columns_from (rows_seen rows.now) (place + 1) (column.now ∷ [])) }
{
    match last_row(rows, 1, place as i128 + 1) {
        Some(row) => {
            told.push(column_said(alloc, column, row)?)?;
            Ok(())
        }
        None => Ok(()),
    }
}

/// The column as the row says it: its type and its place in the key never change.
fn column_said(alloc: Global, column: &ColumnDef, row: &Version) -> Result<ColumnDef, Memory>
    ensures { IfOk result (λ said. said ≡ spec.column_said column.now (values_of row.now)) }
{
    Ok(ColumnDef {
        name: text_at(alloc, row, 3)?,
        ty: column.ty,
        nullable: number_at(row, 7) != 0,
        key_position: column.key_position,
    })
}

/// Those of these ordinals whose last row says that the column was dropped.
fn dropped_told(alloc: Global, rows: &[&Version], dropped: &[u16]) -> Result<Items<u16>, Memory>
    ensures { IfOk result (λ told. told ≡ spec.dropped_told (rows_seen rows.now) dropped.now) }
{
    let mut told = Vec::new(alloc);
    for ordinal in dropped {
        if is_dropped(rows, *ordinal) {
            told.push(*ordinal)?;
        }
    }
    Ok(Items::from_vec(told))
}

fn is_dropped(rows: &[&Version], ordinal: u16) -> bool
    ensures { result ≡ spec.says_dropped (spec.last_row 1 (pos ordinal) (rows_seen rows.now)) }
{
    match last_row(rows, 1, ordinal.into()) {
        Some(row) => number_at(row, 8) == -1,
        None => false,
    }
}

fn indexes_told(
    alloc: Global,
    rows: &[&Version],
    id: TableId,
    indexes: &[IndexDef],
) -> Result<Items<IndexDef>, Memory>
    ensures { IfOk result (λ told. told ≡ spec.indexes_told (rows_seen rows.now) id indexes.now) }
{
    let mut told = Vec::new(alloc);
    for (others, index) in indexes.iter().enumerate() {
        tell_index(alloc, rows, id, others, index, &mut told)?;
    }
    Ok(Items::from_vec(told))
}

/// Adds the index that stands behind so many others, with the parts that have their rows, if there are any.
fn tell_index(
    alloc: Global,
    rows: &[&Version],
    id: TableId,
    others: usize,
    index: &IndexDef,
    told: &mut Vec<IndexDef>,
) -> Result<(), Memory>
    ensures { OnOk result (told.new.items
        ≡ told.old.items ++ indexes_from (rows_seen rows.now) id (others + 1) (index.now ∷ [])) }
{
    let index = index_told(alloc, rows, id, others, index)?;
    if !index.ordinals.is_empty() {
        told.push(index)?;
    }
    Ok(())
}

fn index_told(
    alloc: Global,
    rows: &[&Version],
    id: TableId,
    others: usize,
    index: &IndexDef,
) -> Result<IndexDef, Memory>
    ensures { IfOk result (λ told. told ≡ spec.index_told (rows_seen rows.now) id (others + 1, index.now)) }
{
    Ok(IndexDef {
        name: index.name.copy()?,
        ordinals: parts_told(
            alloc,
            rows,
            id,
            others,
            &index.name,
            index.ordinals.as_slice(),
        )?,
    })
}

fn parts_told(
    alloc: Global,
    rows: &[&Version],
    id: TableId,
    others: usize,
    name: &Name,
    ordinals: &[u16],
) -> Result<Items<u16>, Memory>
    ensures { IfOk result (λ told. told
        ≡ parts_from (rows_seen rows.now) id (others + 1) name.now 1 ordinals.now) }
{
    let mut told = Vec::new(alloc);
    for (place, ordinal) in ordinals.iter().enumerate() {
        tell_part(rows, id, others, name, place, *ordinal, &mut told)?;
    }
    Ok(Items::from_vec(told))
}

/// Adds the part at this place, counted from 0, if it has its row.
fn tell_part(
    rows: &[&Version],
    id: TableId,
    others: usize,
    name: &Name,
    place: usize,
    ordinal: u16,
    told: &mut Vec<u16>,
) -> Result<(), Memory>
    ensures { OnOk result (told.new.items
        ≡ told.old.items ++ parts_from (rows_seen rows.now) id (others + 1) name.now (place + 1) (ordinal ∷ [])) }
{
    if has_part_row(rows, id, others, name, place, ordinal) {
        told.push(ordinal)?;
    }
    Ok(())
}
