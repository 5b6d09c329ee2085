//! The values of rows, and of their versions.

ghost use Rattle.std.specs.Prelude.{◌≡◌, ◌-◌, ◌++◌, List, IfOk, OnOk, length, replicate, unwrap_or};
ghost use Rattle.std.specs.Option.{option_copied};
ghost use Rattle.sql_value.specs.declared.value.Value.{Value as AnyValue};
ghost use Rattle.sql_value.specs.declared.value.Value.TheVariants.{Null};
ghost use Rattle.spec_model.specs.Rows as spec;
ghost use Rattle.spec_model.specs.Keys.{value_at as spec_value_at};

use base_types::{Items, Memory};
use sql_types::{Row, TypedValue, Version};
use sql_value::{ColumnDef, Value};
use std::alloc::Global;

/// What has a value for each column.
pub trait Valued: Drop {
    /// The values.
    ghost values: { Self → List AnyValue };

    /// The value at a place; none is NULL.
    fn value_at(&self, place: usize) -> Option<&Value>
        ensures { unwrap_or (option_copied result) Null ≡ spec_value_at (values self.now) place };
}

impl Valued for Row {
    ghost values = { λ r. r };

    #[tactic(auto, using(crate::proofs::Lists::read_at))]
    fn value_at(&self, place: usize) -> Option<&Value> {
        self.get(place)
    }
}

impl Valued for Version {
    ghost values = { spec.values_of };

    #[tactic(auto, using(crate::proofs::Lists::stored_at))]
    fn value_at(&self, place: usize) -> Option<&Value> {
        match self.values.get(place) {
            Some(stored) => value_in(stored),
            None => None,
        }
    }
}

/// The value that is stored; NULL is none.
fn value_in(stored: &Option<TypedValue>) -> Option<&Value>
    ensures { unwrap_or (option_copied result) Null ≡ spec.value_or_null stored.now }
{
    match stored {
        Some(typed) => Some(&typed.value),
        None => None,
    }
}

/// A copy of the value that is stored; NULL is none.
fn value_or_null(value: &Option<TypedValue>) -> Result<Value, Memory>
    ensures { IfOk result (λ v. v ≡ spec.value_or_null value.now) }
{
    match value {
        Some(typed) => typed.value.copy(),
        None => Ok(Value::Null),
    }
}

/// A copy of the value; none is NULL.
pub fn copy_or_null(value: Option<&Value>) -> Result<Value, Memory>
    ensures { IfOk result (λ v. v ≡ unwrap_or (option_copied value.entry) Null) }
{
    match value {
        Some(value) => value.copy(),
        None => Ok(Value::Null),
    }
}

/// Adds copies of a version's values to a row, and behind them NULL for each column that has none.
pub(crate) fn add_values(
    columns: &[ColumnDef],
    version: &Version,
    row: &mut Vec<Value>,
) -> Result<(), Memory>
    ensures { OnOk result (row.new.items ≡ row.old.items ++ spec.row_of columns.now version.now) }
{
    add_stored(version, row)?;
    add_nulls(missing(columns, version), row)?;
    Ok(())
}

/// How many columns have no value in a version.
fn missing(columns: &[ColumnDef], version: &Version) -> usize
    ensures { result ≡ length columns.now - length version.now.values }
{
    columns.len().saturating_sub(version.values.len())
}

/// The row that a version is under these columns, copied: its values, and NULL for each column behind them.
pub fn row_of(alloc: Global, columns: &[ColumnDef], version: &Version) -> Result<Row, Memory>
    ensures { IfOk result (λ row. row ≡ spec.row_of columns.now version.now) }
{
    let mut row = Vec::with_capacity(alloc, columns.len())?;
    add_values(columns, version, &mut row)?;
    Ok(Items::from_vec(row))
}

fn add_stored(version: &Version, row: &mut Vec<Value>) -> Result<(), Memory>
    ensures { OnOk result (row.new.items ≡ row.old.items ++ spec.values_of version.now) }
{
    for value in version.values.as_slice() {
        row.push(value_or_null(value)?)?;
    }
    Ok(())
}

fn add_nulls(count: usize, row: &mut Vec<Value>) -> Result<(), Memory>
    ensures { OnOk result (row.new.items ≡ row.old.items ++ replicate count Null) }
{
    for _ in 0..count {
        row.push(Value::Null)?;
    }
    Ok(())
}

fn stored_value(column: &ColumnDef, value: Value) -> Option<TypedValue>
    ensures { result ≡ spec.stored_value column.now value }
{
    match value {
        Value::Null => None,
        _ => Some(TypedValue {
            ty: column.ty,
            value,
        }),
    }
}

/// A row as its columns store it. The values are moved.
pub fn stored_row(
    alloc: Global,
    columns: &[ColumnDef],
    row: Row,
) -> Result<Items<Option<TypedValue>>, Memory>
    ensures { IfOk result (λ stored. stored ≡ spec.stored_row columns.now row) }
{
    let mut stored = Vec::with_capacity(alloc, row.len())?;
    for (column, value) in columns.iter().zip(row.into_vec()) {
        stored.push(stored_value(column, value))?;
    }
    Ok(Items::from_vec(stored))
}

/// A whole number as a value.
pub fn number(n: u64) -> Value
    ensures { result ≡ spec.number n }
{
    Value::Num { v: n.into(), s: 0 }
}
