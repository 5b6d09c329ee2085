//! Primary keys of rows and versions.

ghost use Rattle.std.specs.Prelude.{◌≡◌, ◌==◌, not, IfOk, map, filter_map, slice_get, unwrap_or};
ghost use Rattle.std.specs.List.{filter};
ghost use Rattle.std.specs.Option.{option_copied};
ghost use Rattle.sql_value.specs.declared.value.Value.TheVariants.{Null};
ghost use Rattle.sql_value.specs.Order.{value_cmp};
ghost use Rattle.spec_model.specs.Lists.{numbered};
ghost use Rattle.spec_model.specs.Keys as spec;
ghost use Rattle.spec_model.specs.Keys.{key_at};
ghost use Rattle.sql_parts.specs.Places.{place_in};

use crate::keyed::KeyedTable;
use crate::order::sort_by_position;
use crate::values::{Valued, copy_or_null};
use base_types::{Items, Memory};
use sql_types::{Key, Row};
use sql_value::{ColumnDef, Value, compare};
use std::alloc::Global;
use std::cmp::Ordering;

/// The places of the columns of the primary key, by key position.
#[tactic(auto, unfolding(spec_model::specs::Keys::key_places))]
pub fn key_places(alloc: Global, columns: &[ColumnDef]) -> Result<Vec<usize>, Memory>
    ensures { IfOk result (λ places. places.items ≡ spec.key_places columns.now) }
{
    let mut placed = columns_in_key(alloc, columns)?;
    sort_by_position(&mut placed)?;
    places_of(alloc, &placed)
}

/// The columns that have a key position, each with its place.
fn columns_in_key<'a>(
    alloc: Global,
    columns: &'a [ColumnDef],
) -> Result<Vec<(usize, &'a ColumnDef)>, Memory>
    ensures { IfOk result (λ placed. map (λ p. (p.0, p.1.now)) placed.items
        ≡ filter (λ p. not (p.1.key_position == 0)) (numbered 0 columns.now)) }
{
    let mut placed = Vec::new(alloc);
    for place in 0..columns.len() {
        let column = &columns[place];
        if column.key_position != 0 {
            placed.push((place, column))?;
        }
    }
    Ok(placed)
}

fn places_of(alloc: Global, placed: &[(usize, &ColumnDef)]) -> Result<Vec<usize>, Memory>
    ensures { IfOk result (λ places. places.items ≡ map place_in (map (λ p. (p.0, p.1.now)) placed.now)) }
{
    let mut places = Vec::with_capacity(alloc, placed.len())?;
    for column in placed {
        places.push(column.0)?;
    }
    Ok(places)
}

/// The columns of the primary key, by key position.
pub(crate) fn key_columns<'a>(
    alloc: Global,
    table: &KeyedTable<'a>,
) -> Result<Vec<&'a ColumnDef>, Memory>
    ensures { IfOk result (λ found. map (λ c. c.now) found.items ≡ spec.key_columns table.now.columns) }
{
    columns_at(alloc, table.columns(), table.key())
}

fn column_at(columns: &[ColumnDef], place: usize) -> Option<&ColumnDef>
    ensures { option_copied result ≡ slice_get columns.now place }
{
    columns.get(place)
}

fn columns_at<'a>(
    alloc: Global,
    columns: &'a [ColumnDef],
    places: &[usize],
) -> Result<Vec<&'a ColumnDef>, Memory>
    ensures { IfOk result (λ found. map (λ c. c.now) found.items
        ≡ filter_map (slice_get columns.now) places.now) }
{
    let mut found = Vec::new(alloc);
    for place in places {
        if let Some(column) = column_at(columns, *place) {
            found.push(column)?;
        }
    }
    Ok(found)
}

/// The key of a row of the table, copied.
#[tactic(auto, unfolding(spec_model::specs::Keys::key_at))]
pub fn key_of(alloc: Global, table: &KeyedTable, row: &Row) -> Result<Key, Memory>
    ensures { IfOk result (λ key. key ≡ spec.key_of table.now.columns row.now) }
{
    let places = table.key();
    let mut key = Vec::with_capacity(alloc, places.len())?;
    for place in places {
        key.push(copy_or_null(row.value_at(*place))?)?;
    }
    Ok(Items::from_vec(key))
}

/// The order of two values. None is NULL.
#[tactic(auto, unfolding(sql_value::specs::Order::value_cmp))]
pub fn compare_values(a: Option<&Value>, b: Option<&Value>) -> Ordering
    ensures { result ≡ value_cmp (unwrap_or (option_copied a.entry) Null)
        (unwrap_or (option_copied b.entry) Null) }
{
    match (a, b) {
        (Some(a), Some(b)) => compare(a, b),
        (Some(a), None) => compare(a, &Value::Null),
        (None, Some(b)) => compare(&Value::Null, b),
        (None, None) => Ordering::Equal,
    }
}

/// The order of the keys of two rows or versions of the table, which stay where they are.
pub fn compare_by_key<A: Valued, B: Valued>(table: &KeyedTable, a: &A, b: &B) -> Ordering
    ensures { result ≡ spec.key_cmp (spec.key_of table.now.columns (A.values a.now))
        (spec.key_of table.now.columns (B.values b.now)) }
{
    compare_at(table.key(), a, b)
}

/// The order of the values that two rows or versions have at these places, the first that differ.
#[tactic(auto, unfolding(spec_model::specs::Keys::key_at, spec_model::specs::Keys::key_cmp))]
pub fn compare_at<A: Valued, B: Valued>(places: &[usize], a: &A, b: &B) -> Ordering
    ensures { result ≡ spec.key_cmp (key_at places.now (A.values a.now))
        (key_at places.now (B.values b.now)) }
{
    for place in places {
        let order = compare_values(a.value_at(*place), b.value_at(*place));
        if order != Ordering::Equal {
            return order;
        }
    }
    Ordering::Equal
}

/// The order of the values of a row or a version at these places, and a key.
#[tactic(auto, unfolding(spec_model::specs::Keys::key_at, spec_model::specs::Keys::key_cmp))]
pub fn compare_to_key<A: Valued>(places: &[usize], a: &A, key: &[Value]) -> Ordering
    ensures { result ≡ spec.key_cmp (key_at places.now (A.values a.now)) key.now }
{
    match places {
        [] => {
            if key.is_empty() {
                Ordering::Equal
            } else {
                Ordering::Less
            }
        }
        [place, places @ ..] => match key {
            [] => Ordering::Greater,
            [value, key @ ..] => match compare_values(a.value_at(*place), Some(value)) {
                Ordering::Equal => compare_to_key(places, a, key),
                order => order,
            },
        },
    }
}

/// Whether two rows or versions of the table have one key.
#[tactic(auto, unfolding(spec_model::specs::Keys::same_key))]
pub fn same_key<A: Valued, B: Valued>(table: &KeyedTable, a: &A, b: &B) -> bool
    ensures { result ≡ spec.same_key (spec.key_of table.now.columns (A.values a.now))
        (spec.key_of table.now.columns (B.values b.now)) }
{
    compare_by_key(table, a, b).is_eq()
}

/// Whether a row or a version of the table has this key.
#[tactic(auto, unfolding(spec_model::specs::Keys::same_key))]
pub fn has_key<A: Valued>(table: &KeyedTable, a: &A, key: &[Value]) -> bool
    ensures { result ≡ spec.same_key (spec.key_of table.now.columns (A.values a.now)) key.now }
{
    compare_to_key(table.key(), a, key).is_eq()
}
