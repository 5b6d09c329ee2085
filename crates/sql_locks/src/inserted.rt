//! What INSERT wants.

ghost use Rattle.std.specs.Prelude.{◌≡◌, ◌∷◌, IfOk, List, map, unwrap_or};
ghost use Rattle.std.specs.Option.{option_copied};
ghost use Rattle.sql_value.specs.declared.value.Value.{Value as AnyValue};
ghost use Rattle.sql_value.specs.declared.value.Value.TheVariants.{Null};
ghost use Rattle.sql_types.specs.declared.lock.Mode.TheVariants.{IX, X};
ghost use Rattle.spec_model.specs.Changes.{arranged};
ghost use Rattle.spec_model.specs.Keys.{value_at};
ghost use Rattle.spec_model.specs.Lists.{all_some};
ghost use Rattle.spec_model.specs.Locks as spec;
ghost use Rattle.sql_locks.specs.Inserted.{keyed_at};

use crate::rows::{of_key, whole};
use base_types::{Items, Memory, Name};
use sql_change::value_named;
use sql_parts::{KeyedTable, copy_or_null};
use sql_scalar::to_column;
use sql_types::{Key, LockRequest, Mode, Row};
use sql_value::{ColumnDef, Value, ValueErr};
use std::alloc::Global;

/// X on the key of each row and an intent on the table, where each row has one, and else X on the table.
pub(crate) fn key_requests(
    alloc: Global,
    table: &KeyedTable,
    names: &Option<Items<Name>>,
    rows: &[Row],
) -> Result<Vec<LockRequest>, Memory>
    ensures { IfOk result (λ requests. requests.items
        ≡ spec.by_keys (all_some (map (spec.key_inserted table.now.columns names.now) rows.now))) }
{
    match keys_of(alloc, table, names, rows)? {
        Some(keys) => requests_of(alloc, keys),
        None => Ok(Vec::from_array(alloc, [whole(Mode::X)])?),
    }
}

fn requests_of(alloc: Global, keys: Items<Key>) -> Result<Vec<LockRequest>, Memory>
    ensures { IfOk result (λ requests. requests.items ≡ spec.whole IX ∷ map (spec.of_key X) keys) }
{
    let mut requests = Vec::from_array(alloc, [whole(Mode::IX)])?;
    for key in keys.into_vec() {
        requests.push(of_key(Mode::X, key))?;
    }
    Ok(requests)
}

/// The keys of the rows, where each has one.
#[tactic(auto, using(sql_parts::proofs::Fixed::some_after_none))]
fn keys_of(
    alloc: Global,
    table: &KeyedTable,
    names: &Option<Items<Name>>,
    rows: &[Row],
) -> Result<Option<Items<Key>>, Memory>
    ensures { IfOk result (λ keys. keys
        ≡ all_some (map (spec.key_inserted table.now.columns names.now) rows.now)) }
{
    let mut keys = Items::new(alloc);
    for row in rows {
        match key_of(alloc, table, names, row.as_slice())? {
            Some(key) => keys.push(key)?,
            None => return Ok(None),
        }
    }
    Ok(Some(keys))
}

/// The key of a row of VALUES, where its values for the key convert and none of them is NULL.
#[tactic(auto, using(crate::proofs::KeyPlaces::key_is))]
fn key_of(
    alloc: Global,
    table: &KeyedTable,
    names: &Option<Items<Name>>,
    row: &[Value],
) -> Result<Option<Key>, Memory>
    ensures { IfOk result (λ key. key ≡ spec.key_inserted table.now.columns names.now row.now) }
{
    key_values(alloc, table.columns(), table.key(), names, row)
}

#[tactic(auto, using(sql_parts::proofs::Fixed::some_after_none))]
fn key_values(
    alloc: Global,
    columns: &[ColumnDef],
    places: &[usize],
    names: &Option<Items<Name>>,
    row: &[Value],
) -> Result<Option<Key>, Memory>
    ensures { IfOk result (λ key. key
        ≡ all_some (map (keyed_at columns.now (arranged columns.now names.now row.now)) places.now)) }
{
    let mut key = Items::new(alloc);
    for place in places {
        match key_value(columns, *place, given(columns, names, row, *place))? {
            Some(value) => key.push(value)?,
            None => return Ok(None),
        }
    }
    Ok(Some(key))
}

/// The value that a row of VALUES gives the column at this place; none is NULL.
#[tactic(auto, unfolding(spec_model::specs::Changes::arranged))]
fn given<'a>(
    columns: &[ColumnDef],
    names: &Option<Items<Name>>,
    row: &'a [Value],
    place: usize,
) -> Option<&'a Value>
    ensures { unwrap_or (option_copied result) Null
        ≡ value_at (arranged columns.now names.now row.now) place }
{
    match names {
        Some(names) => match columns.get(place) {
            Some(column) => value_named(names.as_slice(), row, &column.name),
            None => None,
        },
        None => row.get(place),
    }
}

/// What the column at this place makes of a value, where that is something else than NULL.
fn key_value(
    columns: &[ColumnDef],
    place: usize,
    value: Option<&Value>,
) -> Result<Option<Value>, Memory>
    ensures { IfOk result (λ key. (row : List AnyValue)
        → value_at row place ≡ unwrap_or (option_copied value.entry) Null
        → key ≡ keyed_at columns.now row place) }
{
    match columns.get(place) {
        Some(column) => Ok(converted_key(to_column(copy_or_null(value)?, &column.ty))),
        None => Ok(None),
    }
}

fn converted_key(converted: Result<Value, ValueErr>) -> Option<Value>
    ensures { result ≡ spec.key_value converted }
{
    match converted {
        Ok(Value::Null) | Err(_) => None,
        Ok(value) => Some(value),
    }
}
