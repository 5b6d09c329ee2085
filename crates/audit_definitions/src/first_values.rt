//! Numbers in the rows of system tables.

ghost use Rattle.std.specs.Prelude.{◌≡◌, ◌∷◌};
ghost use Rattle.spec_model.specs.Rows.{Row, values_of, value_or_null};
ghost use Rattle.law_catalog_rows.specs.Differs.{table_of};
ghost use Rattle.law_catalog_rows.specs.Latest as latest;

use sql_types::{TypedValue, Version};
use sql_value::Value;

/// The number that is the first value of the row, if one is.
pub fn table_of(version: &Version) -> Option<i128>
    ensures { result ≡ table_of (values_of version.now) }
{
    match version.values.as_slice() {
        [] => None,
        [first, ..] => number_in(first),
    }
}

fn number_in(stored: &Option<TypedValue>) -> Option<i128>
    ensures { (more : Row) → result ≡ table_of (value_or_null stored.now ∷ more) }
{
    match stored {
        Some(typed) => number_of(&typed.value),
        None => None,
    }
}

fn number_of(value: &Value) -> Option<i128>
    ensures { (more : Row) → result ≡ table_of (value.now ∷ more) }
{
    match value {
        Value::Num { v, .. } => Some(*v),
        Value::Null | Value::Text(_) | Value::Bytes(_) | Value::Date(_) => None,
    }
}

/// The number at this place of the row, counted from 0, or 0 where no number stands.
pub fn number_at(version: &Version, place: usize) -> i128
    ensures { result ≡ latest.number_at place (values_of version.now) }
{
    match version.values.as_slice().get(place) {
        Some(Some(typed)) => number_or_zero(&typed.value),
        Some(None) | None => 0,
    }
}

fn number_or_zero(value: &Value) -> i128
    ensures { result ≡ latest.number_in value.now }
{
    match value {
        Value::Num { v, .. } => *v,
        Value::Null | Value::Text(_) | Value::Bytes(_) | Value::Date(_) => 0,
    }
}
