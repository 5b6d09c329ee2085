//! The rows of an index.

ghost use Rattle.std.specs.Prelude.{◌≡◌, ◌++◌, suc, IfOk, OnOk, map};
ghost use Rattle.format_image.specs.Rows as spec;

use crate::stored::{copy_at, copy_in, sort_stored};
use base_types::{Items, Memory};
use sql_parts::KeyedTable;
use sql_types::{IndexDef, IndexRow, TypedValue, Version};
use std::alloc::Global;

/// The rows of an index over these versions of its table, sorted: of each version the values of the index's
/// columns, and then those of the key's. It copies these values.
#[tactic(auto, unfolding(format_image::specs::Rows::index_rows))]
pub(crate) fn index_rows(
    alloc: Global,
    table: &KeyedTable,
    base: &[Version],
    index: &IndexDef,
) -> Result<Items<IndexRow>, Memory>
    ensures { IfOk result (λ rows. rows ≡ spec.index_rows table.now base.now index.now) }
{
    let mut rows = Vec::with_capacity(alloc, base.len())?;
    for version in base {
        rows.push(index_row(alloc, table, index, version)?)?;
    }
    sort_stored(&mut rows)?;
    Ok(Items::from_vec(rows))
}

/// The row of an index for a version: the values of the index's columns, and then those of the key's.
#[tactic(auto, unfolding(format_image::specs::Rows::index_ordinals), using(crate::proofs::Joined::joined))]
fn index_row(
    alloc: Global,
    table: &KeyedTable,
    index: &IndexDef,
    version: &Version,
) -> Result<IndexRow, Memory>
    ensures { IfOk result (λ row. row ≡ spec.index_row table.now index.now version.now) }
{
    let mut row = Vec::with_capacity(alloc, index.ordinals.len())?;
    add_columns(version, index.ordinals.as_slice(), &mut row)?;
    add_places(version, table.key(), &mut row)?;
    Ok(Items::from_vec(row))
}

/// Adds copies of the values of the columns with these ordinals.
fn add_columns(
    version: &Version,
    ordinals: &[u16],
    row: &mut Vec<Option<TypedValue>>,
) -> Result<(), Memory>
    ensures { OnOk result
        (row.new.items ≡ row.old.items ++ map (spec.stored_at version.now.values) ordinals.now) }
{
    for ordinal in ordinals {
        row.push(copy_at(version.values.as_slice(), *ordinal)?)?;
    }
    Ok(())
}

/// Adds copies of the values at these places.
fn add_places(
    version: &Version,
    places: &[usize],
    row: &mut Vec<Option<TypedValue>>,
) -> Result<(), Memory>
    ensures { OnOk result (row.new.items
        ≡ row.old.items ++ map (λ place. spec.stored_at version.now.values (suc place)) places.now) }
{
    for place in places {
        row.push(copy_in(version.values.as_slice(), *place)?)?;
    }
    Ok(())
}
