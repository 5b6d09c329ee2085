//! Tables with their rows as an image has them.

ghost use Rattle.std.specs.Prelude.{◌≡◌, ◌++◌, IfOk, OnOk, map};
ghost use Rattle.spec_model.specs.Rows.{filled_stored, live};
ghost use Rattle.format_image.specs.Rows as spec;

use crate::indexes::index_rows;
use base_types::{Items, Memory};
use sql_parts::{KeyedTable, key_places};
use sql_types::{IndexRow, Table, TableDef, TableRows, TypedValue, Version};
use sql_value::ColumnDef;
use std::alloc::Global;

/// A table of an image.
#[derive(Drop)]
pub(crate) struct StoredTable {
    pub def: TableDef,
    pub rows: TableRows,
}

/// The rows of a table, for its image. The versions are moved, and the values of the rows of indexes copied.
#[tactic(auto, unfolding(format_image::specs::Rows::table_rows))]
pub(crate) fn table_rows(alloc: Global, table: Table) -> Result<StoredTable, Memory>
    ensures def { IfOk result (λ stored. stored.def ≡ table.def) }
    ensures rows { IfOk result (λ stored. stored.rows ≡ spec.table_rows table) }
{
    let Table { def, versions } = table;
    let versions = all_filled(alloc, def.columns.as_slice(), versions.into_vec())?;
    let mut base = Vec::new(alloc);
    let mut history = Vec::new(alloc);
    part(versions, &mut base, &mut history)?;
    let indexes = all_indexes(alloc, &def, &base)?;
    let rows = TableRows {
        base: Items::from_vec(base),
        history: Items::from_vec(history),
        indexes,
    };
    Ok(StoredTable { def, rows })
}

/// The versions, each with a value for each column. They are moved.
fn all_filled(
    alloc: Global,
    columns: &[ColumnDef],
    versions: Vec<Version>,
) -> Result<Vec<Version>, Memory>
    ensures { IfOk result (λ all. all.items ≡ map (spec.filled_version columns.now) versions.items) }
{
    let mut all = Vec::with_capacity(alloc, versions.len())?;
    for version in versions {
        all.push(filled(columns, version)?)?;
    }
    Ok(all)
}

/// Adds the versions that stand to the base, and those that have ended to the history.
fn part(
    versions: Vec<Version>,
    base: &mut Vec<Version>,
    history: &mut Vec<Version>,
) -> Result<(), Memory>
    ensures base { OnOk result (base.new.items ≡ base.old.items ++ live versions.items) }
    ensures history { OnOk result (history.new.items ≡ history.old.items ++ spec.ended_ones versions.items) }
{
    for version in versions {
        if version.end.is_none() {
            base.push(version)?;
        } else {
            history.push(version)?;
        }
    }
    Ok(())
}

/// The version with a value for each column; what is missing is NULL. Its values are moved.
fn filled(columns: &[ColumnDef], version: Version) -> Result<Version, Memory>
    ensures { IfOk result (λ filled. filled ≡ spec.filled_version columns.now version) }
{
    let Version { values, start, end } = version;
    let values = with_nulls(columns, values)?;
    Ok(Version { values, start, end })
}

/// The values, and NULL behind them for each column that has none.
#[tactic(auto, using(crate::proofs::Filled::filled_by))]
fn with_nulls(
    columns: &[ColumnDef],
    mut values: Items<Option<TypedValue>>,
) -> Result<Items<Option<TypedValue>>, Memory>
    ensures { IfOk result (λ filled. filled ≡ filled_stored columns.now values) }
{
    for _ in 0..columns.len().saturating_sub(values.len()) {
        values.push(None)?;
    }
    Ok(values)
}

/// The rows of each index of a table.
fn all_indexes(
    alloc: Global,
    def: &TableDef,
    base: &[Version],
) -> Result<Items<Items<IndexRow>>, Memory>
    ensures { IfOk result (λ indexes. indexes ≡ map (spec.index_rows def.now base.now) def.now.indexes) }
{
    let places = key_places(alloc, def.columns.as_slice())?;
    let table = KeyedTable::new(def, &places);
    let mut indexes = Vec::with_capacity(alloc, def.indexes.len())?;
    for index in def.indexes.as_slice() {
        indexes.push(index_rows(alloc, &table, base, index)?)?;
    }
    Ok(Items::from_vec(indexes))
}
