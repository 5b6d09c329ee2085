//! Rows as they are stored, and their order.

ghost use Rattle.std.specs.Prelude.{◌≡◌, suc, OnOk, IfOk};
ghost use Rattle.sql_value.specs.Order.{value_cmp};
ghost use Rattle.spec_model.specs.Keys.{key_cmp};
ghost use Rattle.spec_model.specs.Lists.{sorted};
ghost use Rattle.spec_model.specs.Rows.{value_or_null};
ghost use Rattle.format_image.specs.Rows.{stored_at, stored_cmp};

use base_types::Memory;
use sql_types::{IndexRow, TypedValue};
use sql_value::{Value, compare};
use std::cmp::Ordering;

/// A copy of the value of the column with this ordinal, counted from 1; there is none at 0 or behind the
/// last one.
pub(crate) fn copy_at(
    row: &[Option<TypedValue>],
    ordinal: u16,
) -> Result<Option<TypedValue>, Memory>
    ensures { IfOk result (λ value. value ≡ stored_at row.now ordinal) }
{
    if ordinal == 0 {
        return Ok(None);
    }
    copy_in(row, ordinal as usize - 1)
}

/// A copy of the value at this place; there is none behind the last one.
pub(crate) fn copy_in(
    row: &[Option<TypedValue>],
    place: usize,
) -> Result<Option<TypedValue>, Memory>
    ensures { IfOk result (λ value. value ≡ stored_at row.now (suc place)) }
{
    match row.get(place) {
        Some(value) => copy_stored(value),
        None => Ok(None),
    }
}

/// A copy of a stored value; none is NULL.
pub fn copy_stored(value: &Option<TypedValue>) -> Result<Option<TypedValue>, Memory>
    ensures { IfOk result (λ copy. copy ≡ value.now) }
{
    match value {
        Some(typed) => Ok(Some(TypedValue {
            ty: typed.ty,
            value: typed.value.copy()?,
        })),
        None => Ok(None),
    }
}

/// The order of two values, NULL being none.
#[tactic(auto, unfolding(sql_value::specs::Order::value_cmp))]
fn compare_values(a: &Option<TypedValue>, b: &Option<TypedValue>) -> Ordering
    ensures { result ≡ value_cmp (value_or_null a.now) (value_or_null b.now) }
{
    match (a, b) {
        (Some(a), Some(b)) => compare(&a.value, &b.value),
        (Some(a), None) => compare(&a.value, &Value::Null),
        (None, Some(b)) => compare(&Value::Null, &b.value),
        (None, None) => Ordering::Equal,
    }
}

/// The order of two stored rows: by the first value, then by the second, and so on.
#[tactic(auto, unfolding(format_image::specs::Rows::stored_cmp, spec_model::specs::Keys::key_cmp))]
pub(crate) fn compare_stored(a: &[Option<TypedValue>], b: &[Option<TypedValue>]) -> Ordering
    ensures { result ≡ stored_cmp a.now b.now }
{
    match a {
        [] => {
            if b.is_empty() {
                Ordering::Equal
            } else {
                Ordering::Less
            }
        }
        [first, a @ ..] => match b {
            [] => Ordering::Greater,
            [second, b @ ..] => match compare_values(first, second) {
                Ordering::Equal => compare_stored(a, b),
                order => order,
            },
        },
    }
}

/// Sorts stored rows; equal ones keep their order.
pub(crate) fn sort_stored(rows: &mut Vec<IndexRow>) -> Result<(), Memory>
    ensures { OnOk result (rows.new.items ≡ sorted stored_cmp rows.old.items) }
{
    rows.sort_by(|a, b| compare_stored(a.as_slice(), b.as_slice()))?;
    Ok(())
}
