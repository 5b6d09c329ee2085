//! Copies of definitions.

ghost use Rattle.std.specs.Prelude.{◌≡◌, IfOk};

use base_types::{Items, Memory};
use sql_types::{IndexDef, TableDef};
use sql_value::ColumnDef;
use std::alloc::Global;

/// A copy of a table's definition.
pub fn copy_def(alloc: Global, def: &TableDef) -> Result<TableDef, Memory>
    ensures { IfOk result (λ copy. copy ≡ def.now) }
{
    Ok(TableDef {
        id: def.id,
        name: def.name.copy()?,
        kind: def.kind,
        gone: def.gone,
        history: def.history.copy()?,
        view: def.view.copy()?,
        columns: copy_columns(alloc, def.columns.as_slice())?,
        dropped: Items::from_vec(Vec::from_clones(alloc, def.dropped.as_slice())?),
        indexes: copy_indexes(alloc, def.indexes.as_slice())?,
    })
}

/// Copies of columns.
pub fn copy_columns(alloc: Global, columns: &[ColumnDef]) -> Result<Items<ColumnDef>, Memory>
    ensures { IfOk result (λ copy. copy ≡ columns.now) }
{
    let mut copy = Vec::with_capacity(alloc, columns.len())?;
    for column in columns {
        copy.push(column.copy()?)?;
    }
    Ok(Items::from_vec(copy))
}

/// Copies of the definitions of indexes.
pub fn copy_indexes(alloc: Global, indexes: &[IndexDef]) -> Result<Items<IndexDef>, Memory>
    ensures { IfOk result (λ copy. copy ≡ indexes.now) }
{
    let mut copy = Vec::with_capacity(alloc, indexes.len())?;
    for index in indexes {
        copy.push(copy_index(alloc, index)?)?;
    }
    Ok(Items::from_vec(copy))
}

fn copy_index(alloc: Global, index: &IndexDef) -> Result<IndexDef, Memory>
    ensures { IfOk result (λ copy. copy ≡ index.now) }
{
    Ok(IndexDef {
        name: index.name.copy()?,
        ordinals: Items::from_vec(Vec::from_clones(alloc, index.ordinals.as_slice())?),
    })
}
