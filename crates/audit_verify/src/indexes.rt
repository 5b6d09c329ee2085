//! Whether the rows of each index are those of the base.

ghost use Rattle.std.specs.Prelude.{◌≡◌, ◌<◌, ◌&&◌, IfOk, OnOk, map, get_or, []};
ghost use Rattle.std.specs.List.{AllByRecursion};
ghost use Rattle.std.specs.Option.{option_copied};
ghost use Rattle.format_image.specs.ImageBytes.{IsImage};
ghost use Rattle.format_image.specs.Rows as image;
ghost use Rattle.sql_types.specs.declared.table.TableDef.{TableDef};
ghost use Rattle.spec_model.specs.Keys.{key_places};
ghost use Rattle.spec_model.specs.Lists.{sorted};
ghost use Rattle.spec_model.specs.Rows.{value_or_null};
ghost use Rattle.sql_value.specs.Order.{value_cmp};
ghost use Rattle.spec_verify.specs.Indexes as spec;
ghost use Rattle.audit_verify.specs.Indexes.{first_among, HasFewIndexes, row_at};
ghost use Rattle.audit_roots.specs.ImageTable.{AreImageTables};

use audit_columns::same_type;
use audit_roots::ImageTable;
use base_types::{Memory, first_of};
use format_image::{Image, IndexRow};
use spec_verify::Place;
use sql_parts::key_places;
use sql_types::{IndexDef, TypedValue, Version};
use sql_value::{Value, compare};
use std::alloc::Global;
use std::cmp::Ordering;

/// The first index whose rows aren't those of the base.
pub(crate) fn index_fault(
    alloc: Global,
    image: &Image,
    tables: &[ImageTable],
) -> Result<Option<Place>, Memory>
    requires image { IsImage image.now }
    requires tables { AreImageTables tables.now image.now }
    ensures { IfOk result (λ place. place ≡ spec.index_fault image.now) }
{
    fault_among(alloc, tables)
}

/// The first index of these tables whose rows aren't those of the base.
pub(crate) fn fault_among(alloc: Global, tables: &[ImageTable]) -> Result<Option<Place>, Memory>
    requires { AllByRecursion HasFewIndexes tables.now }
    ensures { IfOk result (λ place. place ≡ first_among tables.now) }
{
    for table in tables {
        if let Some(place) = table_fault(alloc, table)? {
            return Ok(Some(place));
        }
    }
    Ok(None)
}

fn table_fault(alloc: Global, table: &ImageTable) -> Result<Option<Place>, Memory>
    requires { HasFewIndexes table.now }
    ensures { IfOk result (λ place. place ≡ spec.table_fault table.now.def.now table.now.rows.now) }
{
    let key = key_places(alloc, table.def.columns.as_slice())?;
    for (g, index) in table.def.indexes.as_slice().iter().enumerate() {
        if !index_holds(alloc, table, &key, g, index)? {
            let table = table.def.id;
            return Ok(Some(Place::Index {
                table,
                index: (g + 1) as u8,
            }));
        }
    }
    Ok(None)
}

#[tactic(auto, unfolding(format_image::specs::Rows::index_rows))]
fn index_holds(
    alloc: Global,
    table: &ImageTable,
    key: &[usize],
    g: usize,
    index: &IndexDef,
) -> Result<bool, Memory>
    requires { key.now ≡ key_places table.now.def.now.columns }
    ensures { IfOk result (λ holds. holds
        ≡ spec.index_holds table.now.def.now table.now.rows.now g index.now) }
{
    let ordinals = ordinals_of(alloc, key, index)?;
    let versions = sorted_versions(alloc, &ordinals, table.rows.base.as_slice())?;
    Ok(same_rows(rows_at(table, g), &ordinals, &versions))
}

#[tactic(auto, using(crate::proofs::Places::at_or))]
fn rows_at<'a>(table: &ImageTable<'a>, g: usize) -> &'a [IndexRow]
    ensures { result.now ≡ get_or table.now.rows.now.indexes g [] }
{
    match table.rows.indexes.get(g) {
        Some(rows) => rows.as_slice(),
        None => &[],
    }
}

/// The ordinals of an index's columns, and then those of the key's.
#[tactic(auto, unfolding(format_image::specs::Rows::index_ordinals))]
fn ordinals_of(alloc: Global, key: &[usize], index: &IndexDef) -> Result<Vec<usize>, Memory>
    ensures { IfOk result (λ ordinals. (def : TableDef) → key.now ≡ key_places def.columns
        → ordinals.items ≡ image.index_ordinals def index.now) }
{
    let mut ordinals = Vec::new(alloc);
    for ordinal in index.ordinals.as_slice() {
        ordinals.push(*ordinal as usize)?;
    }
    for place in key {
        ordinals.push(place.checked_add(1).ok_or(Memory)?)?;
    }
    Ok(ordinals)
}

/// The versions, sorted by their values in these columns.
fn sorted_versions<'a>(
    alloc: Global,
    ordinals: &[usize],
    versions: &'a [Version],
) -> Result<Vec<&'a Version>, Memory>
    ensures { IfOk result (λ found. map (λ v. row_at ordinals.now v.now) found.items
        ≡ sorted image.stored_cmp (map (row_at ordinals.now) versions.now)) }
{
    let mut found = all_of(alloc, versions)?;
    sort_by_row(ordinals, &mut found)?;
    Ok(found)
}

fn all_of<'a>(alloc: Global, versions: &'a [Version]) -> Result<Vec<&'a Version>, Memory>
    ensures { IfOk result (λ found. map (λ v. v.now) found.items ≡ versions.now) }
{
    let mut found = Vec::with_capacity(alloc, versions.len())?;
    for version in versions {
        found.push(version)?;
    }
    Ok(found)
}

fn sort_by_row(ordinals: &[usize], versions: &mut Vec<&Version>) -> Result<(), Memory>
    ensures { OnOk result (map (λ v. row_at ordinals.now v.now) versions.new.items
        ≡ sorted image.stored_cmp (map (λ v. row_at ordinals.now v.now) versions.old.items)) }
{
    versions.sort_by(|a, b| compare_rows(ordinals, *a, *b))?;
    Ok(())
}

#[tactic(auto, unfolding(format_image::specs::Rows::stored_cmp, spec_model::specs::Keys::key_cmp))]
fn compare_rows(ordinals: &[usize], a: &Version, b: &Version) -> Ordering
    ensures { result ≡ image.stored_cmp (row_at ordinals.now a.now) (row_at ordinals.now b.now) }
{
    for ordinal in ordinals {
        let order = compare_values(stored_at(a, *ordinal), stored_at(b, *ordinal));
        if order != Ordering::Equal {
            return order;
        }
    }
    Ordering::Equal
}

fn compare_values(a: Option<&TypedValue>, b: Option<&TypedValue>) -> Ordering
    ensures { result ≡ value_cmp (value_or_null (option_copied a.entry))
        (value_or_null (option_copied b.entry)) }
{
    match (a, b) {
        (Some(a), Some(b)) => compare(&a.value, &b.value),
        (Some(a), None) => compare(&a.value, &Value::Null),
        (None, Some(b)) => compare(&Value::Null, &b.value),
        (None, None) => compare(&Value::Null, &Value::Null),
    }
}

/// The value in the column with this ordinal; NULL is none.
#[tactic(auto, using(crate::proofs::Places::at_or))]
fn stored_at(version: &Version, ordinal: usize) -> Option<&TypedValue>
    ensures { option_copied result ≡ image.stored_at version.now.values ordinal }
{
    if ordinal == 0 {
        return None;
    }
    match version.values.get(ordinal - 1) {
        Some(stored) => typed_in(stored),
        None => None,
    }
}

fn typed_in(stored: &Option<TypedValue>) -> Option<&TypedValue>
    ensures { option_copied result ≡ stored.now }
{
    match stored {
        Some(typed) => Some(typed),
        None => None,
    }
}

/// Whether these are the rows of these versions in these columns, in the same order.
fn same_rows(rows: &[IndexRow], ordinals: &[usize], versions: &[&Version]) -> bool
    ensures { result ≡ spec.same_rows rows.now (map (λ v. row_at ordinals.now v.now) versions.now) }
{
    let mut rows = rows;
    let mut versions = versions;
    'each: loop {
        match rows {
            [] => return versions.is_empty(),
            [row, more @ ..] => match versions {
                [] => return false,
                [version, others @ ..] => {
                    if !same_row(row.as_slice(), ordinals, *version) {
                        return false;
                    }
                    rows = more;
                    versions = others;
                }
            },
        }
    }
}

fn same_row(row: &[Option<TypedValue>], ordinals: &[usize], version: &Version) -> bool
    ensures { result ≡ spec.same_row row.now (row_at ordinals.now version.now) }
{
    let mut row = row;
    let mut ordinals = ordinals;
    'each: loop {
        match (first_of(row), first_of(ordinals)) {
            (None, None) => return true,
            (Some((value, more)), Some((ordinal, others))) => {
                if !same_value(value, stored_at(version, *ordinal)) {
                    return false;
                }
                row = more;
                ordinals = others;
            }
            (None, Some(_)) | (Some(_), None) => return false,
        }
    }
}

/// Whether both are NULL, or one value of one type.
fn same_value(a: &Option<TypedValue>, b: Option<&TypedValue>) -> bool
    ensures { result ≡ spec.same_value a.now (option_copied b.entry) }
{
    match (a, b) {
        (None, None) => true,
        (Some(a), Some(b)) => same_type(a.ty, b.ty) && compare(&a.value, &b.value).is_eq(),
        _ => false,
    }
}
