//! Whether a definition may be spelled by rows of the two tables of the system.

ghost use Rattle.std.specs.Prelude.{◌≡◌, ◌<◌, ◌^◌, ◌==◌, ◌+◌, ◌&&◌, ◌||◌, not, IfOk};
ghost use Rattle.std.specs.List.{list_all, list_any, range_with_len};
ghost use Rattle.spec_model.specs.Lists.{is_among, numbered, rise_within};
ghost use Rattle.law_catalog_rows.specs.IsEncodableDef as spec;
ghost use Rattle.audit_definitions.specs.Rules.{names_are_right, columns_are_right, indexes_are_right};

use crate::names::{
    column_names_repeat, has_its_history, index_names_repeat, is_ledger_name, is_proper_name,
    table_names_repeat,
};
use base_types::Memory;
use sql_types::{IndexDef, TableDef};
use sql_value::ColumnDef;
use std::alloc::Global;

/// Whether the definition keeps to the rules by itself.
pub(crate) fn is_encodable_def(alloc: Global, def: &TableDef) -> Result<bool, Memory>
    ensures { IfOk result (λ may. may ≡ spec.is_encodable_def def.now) }
{
    let columns = def.columns.as_slice();
    let positions = positions_of(alloc, columns)?;
    let named = has_right_columns_and_names(def, columns, &positions);
    let has_indexes = has_right_indexes(columns.len(), def.indexes.as_slice());
    Ok(both_hold(named, has_indexes))
}

fn both_hold(a: bool, b: bool) -> bool
    ensures { result ≡ (a && b) }
{
    a && b
}

/// Whether the names and the columns are right. Columns come first: those that were dropped are gone through for
/// each column of the key, so only where there are few.
#[tactic(auto, using(crate::proofs::RuleGroups::either_way))]
fn has_right_columns_and_names(def: &TableDef, columns: &[ColumnDef], positions: &[u16]) -> bool
    ensures { result ≡ (names_are_right def.now && columns_are_right columns.now positions.now) }
{
    has_right_columns(columns, positions) && has_right_names(def)
}

fn has_right_names(def: &TableDef) -> bool
    ensures { result ≡ names_are_right def.now }
{
    3 <= def.id
        && def.id <= 34
        && is_proper_name(def.name.bytes())
        && has_its_history(def.kind, def.history.bytes())
        && is_proper_name(def.view.bytes())
        && !table_names_repeat(def)
        && are_dropped_right(def)
}

/// Whether the ordinals of dropped columns rise and are those of columns, of which none is in the key.
fn are_dropped_right(def: &TableDef) -> bool
    ensures { result ≡ spec.dropped_are_right def.now }
{
    let dropped = def.dropped.as_slice();
    let columns = def.columns.as_slice();
    rise_within(columns.len(), dropped) && are_without_key(dropped, columns)
}

/// Whether they rise from 1 on, and none is above the limit.
fn rise_within(limit: usize, numbers: &[u16]) -> bool
    ensures { result ≡ rise_within 0 limit numbers.now }
{
    let mut last = 0;
    for n in numbers {
        if *n <= last || usize::from(*n) > limit {
            return false;
        }
        last = *n;
    }
    true
}

/// Whether the dropped columns have no key position.
fn are_without_key(dropped: &[u16], columns: &[ColumnDef]) -> bool
    ensures { result ≡ list_all (λ c. not (is_among dropped.now c.0) || c.1.key_position == 0)
        (numbered 1 columns.now) }
{
    for (place, column) in columns.iter().enumerate() {
        if column.key_position != 0 && has_ordinal(dropped, place) {
            return false;
        }
    }
    true
}

/// Whether the ordinal of the column at this place, counted from 0, is one of these.
pub(crate) fn has_ordinal(ordinals: &[u16], place: usize) -> bool
    ensures { result ≡ is_among ordinals.now (place + 1) }
{
    ordinals
        .iter()
        .any(|n| *n != 0 && usize::from(*n) - 1 == place)
}

fn has_right_columns(columns: &[ColumnDef], positions: &[u16]) -> bool
    ensures { result ≡ columns_are_right columns.now positions.now }
{
    1 <= columns.len()
        && columns.len() <= 64
        && are_encodable_columns(columns)
        && !column_names_repeat(columns)
        && are_key_positions(positions)
        && !has_null_key(columns)
}

fn has_right_indexes(columns: usize, indexes: &[IndexDef]) -> bool
    ensures { result ≡ indexes_are_right columns indexes.now }
{
    indexes.len() <= 4 && are_encodable_indexes(columns, indexes) && !index_names_repeat(indexes)
}

fn are_encodable_columns(columns: &[ColumnDef]) -> bool
    ensures { result ≡ list_all spec.is_encodable_column columns.now }
{
    columns.iter().all(is_encodable_column)
}

fn is_encodable_column(column: &ColumnDef) -> bool
    ensures { result ≡ spec.is_encodable_column column.now }
{
    column.ty.is_in_range()
        && is_proper_name(column.name.bytes())
        && !is_ledger_name(column.name.bytes())
}

fn has_null_key(columns: &[ColumnDef]) -> bool
    ensures { result ≡ list_any (λ c. c.nullable && not (c.key_position == 0)) columns.now }
{
    columns
        .iter()
        .any(|column| column.nullable && column.key_position != 0)
}

fn are_encodable_indexes(columns: usize, indexes: &[IndexDef]) -> bool
    ensures { result ≡ list_all (spec.is_encodable_index columns) indexes.now }
{
    indexes
        .iter()
        .all(|index| is_encodable_index(columns, index))
}

fn is_encodable_index(columns: usize, index: &IndexDef) -> bool
    ensures { result ≡ spec.is_encodable_index columns index.now }
{
    let ordinals = index.ordinals.as_slice();
    is_proper_name(index.name.bytes())
        && 1 <= ordinals.len()
        && ordinals.len() <= 4
        && are_ordinals(columns, ordinals)
        && !repeat(ordinals)
}

fn are_ordinals(columns: usize, ordinals: &[u16]) -> bool
    ensures { result ≡ list_all (spec.is_between 1 columns) ordinals.now }
{
    ordinals
        .iter()
        .all(|n| 1 <= *n && usize::from(*n) <= columns)
}

/// The key positions other than 0.
fn positions_of(alloc: Global, columns: &[ColumnDef]) -> Result<Vec<u16>, Memory>
    ensures { IfOk result (λ positions. positions.items ≡ spec.positions_of columns.now) }
{
    let mut positions = Vec::new(alloc);
    for column in columns {
        if column.key_position != 0 {
            positions.push(u16::from(column.key_position))?;
        }
    }
    Ok(positions)
}

/// Whether these are 1 to k, each once, with k from 1 to 4.
fn are_key_positions(positions: &[u16]) -> bool
    ensures { result ≡ spec.are_key_positions positions.now }
{
    let last = greatest(positions);
    1 <= last && last <= 4 && are_all_among(positions, last) && !repeat(positions)
}

fn are_all_among(numbers: &[u16], last: u16) -> bool
    requires { last < 2 ^ 15 }
    ensures { result ≡ list_all (is_among numbers.now) (range_with_len 1 last) }
{
    (1..last + 1).all(|n| is_among(numbers, n))
}

fn is_among(numbers: &[u16], n: u16) -> bool
    ensures { result ≡ is_among numbers.now n }
{
    numbers.iter().any(|m| *m == n)
}

fn greatest(numbers: &[u16]) -> u16
    ensures { result ≡ spec.greatest numbers.now }
{
    let mut greatest = 0;
    let mut k = numbers.len();
    while k > 0 {
        k -= 1;
        if numbers[k] > greatest {
            greatest = numbers[k];
        }
    }
    greatest
}

fn repeat(numbers: &[u16]) -> bool
    ensures { result ≡ spec.number_repeats numbers.now }
{
    for k in 0..numbers.len() {
        if is_among(&numbers[k + 1..], numbers[k]) {
            return true;
        }
    }
    false
}
