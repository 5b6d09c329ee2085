//! Whether the rows of the two tables of the system spell the definitions of all others.

ghost use Rattle.std.specs.Prelude.{◌≡◌, ◌∷◌, ◌++◌, [], pos, IfOk, OnOk, map, filter, filter_map};
ghost use Rattle.std.specs.List.{AllByRecursion};
ghost use Rattle.std.specs.Ordering.{int_cmp};
ghost use Rattle.spec_model.specs.Catalog.{Defs};
ghost use Rattle.spec_model.specs.Rows.{values_of};
ghost use Rattle.law_catalog_rows.specs.Differs as spec;
ghost use Rattle.law_catalog_rows.specs.Least.{least_from, lesser};
ghost use Rattle.spec_verify.specs.Definitions as verdict;
ghost use Rattle.audit_definitions.specs.DefinitionRows.{HasSmallId, base_in, encodes, ids_encoded, is_missing, rows_in, rows_seen, say_def};
ghost use Rattle.audit_definitions.specs.LatestRows.{latest_of};

use crate::changes::{changes_are_right, items_follow};
use crate::first_values::table_of;
use crate::items::{has_item_rows, has_table_row, system_rows_of};
use crate::latest_rows::{latest_rows, latest_table_rows};
use crate::names::has_new_names;
use crate::rules::is_encodable_def;
use base_types::{Memory, TableId};
use spec_verify::{Image, Place};
use sql_types::{TableDef, Version};
use std::alloc::Global;

/// The least table that is defined otherwise than its rows spell it.
pub fn definition_fault(alloc: Global, image: &Image) -> Result<Option<Place>, Memory>
    requires first { AllByRecursion HasSmallId (base_in image.now.tables 0) }
    requires second { AllByRecursion HasSmallId (base_in image.now.tables 1) }
    ensures { IfOk result (λ place. place ≡ verdict.definition_fault image.now) }
{
    let defs = image.defs.as_slice();
    fault_of(alloc, base_at(image, 0), base_at(image, 1), defs)
}

fn fault_of(
    alloc: Global,
    first: &[Version],
    second: &[Version],
    defs: &[TableDef],
) -> Result<Option<Place>, Memory>
    requires first { AllByRecursion HasSmallId first.now }
    requires second { AllByRecursion HasSmallId second.now }
    ensures { IfOk result (λ place. place
        ≡ verdict.table_place (spec.encoding_fault (rows_in first.now) (rows_in second.now) defs.now)) }
{
    let spelled = ids_encoded(alloc, first, second, defs)?;
    let worst = worst_row(&spelled, first, None);
    let worst = worst_row(&spelled, second, worst);
    Ok(table_place(worst_def(&spelled, defs, worst)))
}

/// The base rows of the table at this place; of no table there are none.
pub fn base_at(image: &Image, place: usize) -> &[Version]
    ensures { result.now ≡ base_in image.now.tables place }
{
    match image.tables.get(place) {
        Some(rows) => rows.base.as_slice(),
        None => &[],
    }
}

/// The place of the table.
pub fn table_place(id: Option<i64>) -> Option<Place>
    ensures { result ≡ verdict.table_place id }
{
    match id {
        Some(id) => Some(Place::Table(id)),
        None => None,
    }
}

/// The ids of the definitions that the rows spell. Takes room for 32 ids at most, since no two definitions of
/// an image have one id, and sorts the rows of the first table once.
pub fn ids_encoded(
    alloc: Global,
    first: &[Version],
    second: &[Version],
    defs: &[TableDef],
) -> Result<Vec<TableId>, Memory>
    ensures { IfOk result (λ ids. ids.items ≡ ids_encoded (rows_in first.now) (rows_in second.now) defs.now) }
{
    let named = latest_table_rows(alloc, first)?;
    let mut ids = Vec::new(alloc);
    for def in defs {
        add_if_encoded(alloc, first, second, &named, def, &mut ids)?;
    }
    Ok(ids)
}

fn add_if_encoded(
    alloc: Global,
    first: &[Version],
    second: &[Version],
    named: &[&Version],
    def: &TableDef,
    ids: &mut Vec<TableId>,
) -> Result<(), Memory>
    requires { rows_seen named.now ≡ latest_of 0 (rows_in first.now) }
    ensures { OnOk result ((defs : Defs) → ids.new.items ≡ ids.old.items
        ++ map (λ d. d.id)
        (filter (spec.is_encoded (rows_in first.now) (rows_in second.now) defs) (def.now ∷ []))) }
{
    if is_encoded_with(alloc, first, second, named, def)? {
        ids.push(def.id)?;
    }
    Ok(())
}

/// Whether the rows spell the definition. The only error is want of memory. Sorts the rows of the first table,
/// and those about the table of the definition.
pub fn is_encoded(
    alloc: Global,
    first: &[Version],
    second: &[Version],
    def: &TableDef,
) -> Result<bool, Memory>
    ensures { IfOk result (λ is. (defs : Defs)
        → is ≡ spec.is_encoded (rows_in first.now) (rows_in second.now) defs def.now) }
{
    let named = latest_table_rows(alloc, first)?;
    is_encoded_with(alloc, first, second, &named, def)
}

/// Whether the rows spell the definition, of which those of the first table that count are known. Its own rules
/// come first: they let through the ids from 3 to 34, and the rows are gone through for those alone.
fn is_encoded_with(
    alloc: Global,
    first: &[Version],
    second: &[Version],
    named: &[&Version],
    def: &TableDef,
) -> Result<bool, Memory>
    requires { rows_seen named.now ≡ latest_of 0 (rows_in first.now) }
    ensures { IfOk result (λ is. (defs : Defs)
        → is ≡ spec.is_encoded (rows_in first.now) (rows_in second.now) defs def.now) }
{
    let encodable = is_encodable_def(alloc, def)?;
    if !encodable {
        return Ok(false);
    }
    if !has_new_names(named, def) {
        return Ok(false);
    }
    has_its_rows(alloc, first, second, def)
}

/// Whether the rows about its table say the definition.
fn has_its_rows(
    alloc: Global,
    first: &[Version],
    second: &[Version],
    def: &TableDef,
) -> Result<bool, Memory>
    ensures { IfOk result (λ has. has ≡ encodes (rows_in first.now) (rows_in second.now) def.now) }
{
    let tables = system_rows_of(alloc, first, def.id)?;
    let items = system_rows_of(alloc, second, def.id)?;
    encode_def(alloc, &tables, &items, def)
}

/// Whether those of these rows that count say the definition, and all changes keep to their rules.
fn encode_def(
    alloc: Global,
    tables: &[&Version],
    items: &[&Version],
    def: &TableDef,
) -> Result<bool, Memory>
    ensures { IfOk result (λ encode. encode ≡ spec.encode_def (rows_seen tables.now) (rows_seen items.now) def.now) }
{
    let latest_tables = latest_rows(alloc, 0, tables)?;
    let latest_items = latest_rows(alloc, 1, items)?;
    if !say_def(&latest_tables, items, &latest_items, def) {
        return Ok(false);
    }
    changes_are_right(alloc, tables, items)
}

/// Whether the latest rows say the definition, and what they say of items follows from the rows before.
fn say_def(
    latest_tables: &[&Version],
    items: &[&Version],
    latest_items: &[&Version],
    def: &TableDef,
) -> bool
    ensures { result ≡ say_def (rows_seen latest_tables.now) (rows_seen items.now) (rows_seen latest_items.now) def.now }
{
    has_table_row(latest_tables, def)
        && has_item_rows(latest_items, def)
        && items_follow(items, latest_items)
}

/// Whether it is none of these ids.
fn is_missing(ids: &[TableId], id: i64) -> bool
    ensures { result ≡ is_missing ids.now id }
{
    for own in ids {
        if i64::from(*own) == id {
            return false;
        }
    }
    true
}

fn lesser(worst: Option<i64>, id: i64) -> Option<i64>
    ensures { result ≡ lesser int_cmp worst id }
{
    match worst {
        Some(known) if known <= id => Some(known),
        _ => Some(id),
    }
}

/// The table that the row is about.
fn small_table(version: &Version) -> Option<i64>
    requires { HasSmallId version.now }
    ensures { result ≡ spec.table_of (values_of version.now) }
{
    match table_of(version) {
        Some(table) => Some(table as i64),
        None => None,
    }
}

/// The least so far of the tables that none of these ids is, and of such tables that these rows are about.
pub fn worst_row(spelled: &[TableId], versions: &[Version], worst: Option<i64>) -> Option<i64>
    requires { AllByRecursion HasSmallId versions.now }
    ensures { result ≡ least_from int_cmp worst
        (filter (is_missing spelled.now) (filter_map spec.table_of (rows_in versions.now))) }
{
    let mut worst = worst;
    for version in versions {
        if let Some(id) = small_table(version) {
            if is_missing(spelled, id) {
                worst = lesser(worst, id);
            }
        }
    }
    worst
}

/// The least so far of the tables that none of these ids is, and of such tables that are defined.
pub fn worst_def(spelled: &[TableId], defs: &[TableDef], worst: Option<i64>) -> Option<i64>
    ensures { result ≡ least_from int_cmp worst
        (filter (is_missing spelled.now) (map (λ d. pos d.id) defs.now)) }
{
    let mut worst = worst;
    for def in defs {
        let id = i64::from(def.id);
        if is_missing(spelled, id) {
            worst = lesser(worst, id);
        }
    }
    worst
}
