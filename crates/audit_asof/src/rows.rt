//! Rows of the system's tables that count, and what they say.

ghost use Rattle.std.specs.Prelude.{◌≡◌, if◌then◌else◌, ℤ, IfOk};
ghost use Rattle.std.specs.Ordering.{int_eq};
ghost use Rattle.spec_model.specs.Keys.{value_at};
ghost use Rattle.spec_model.specs.Rows.{values_of, value_or_null};
ghost use Rattle.law_catalog_rows.specs.Latest as latest;
ghost use Rattle.audit_definitions.specs.DefinitionRows.{row_seen, rows_seen};
ghost use Rattle.spec_asof.specs.DefTold as spec;

use audit_definitions::{is_past, number_at};
use base_types::{Memory, Name};
use sql_types::{TypedValue, Version};
use sql_value::Value;
use std::alloc::Global;

/// Of the rows about this thing the one with the greatest change, and of several the first. The number at the place
/// says what a row is about, and the number behind it is its change.
pub(crate) fn last_row<'a>(rows: &[&'a Version], place: u8, thing: i128) -> Option<&'a Version>
    ensures { row_seen result ≡ spec.last_row place thing (rows_seen rows.now) }
{
    let mut last: Option<&'a Version> = None;
    for row in rows {
        if is_about(place, thing, *row) {
            last = later_row(place, last, *row);
        }
    }
    last
}

fn is_about(place: u8, thing: i128, row: &Version) -> bool
    ensures { result ≡ int_eq (latest.number_at place (values_of row.now)) thing }
{
    number_at(row, usize::from(place)) == thing
}

fn later_row<'a>(place: u8, last: Option<&'a Version>, row: &'a Version) -> Option<&'a Version>
    ensures { row_seen result ≡ spec.later_row place (row_seen last.entry) (values_of row.now) }
{
    match last {
        Some(last) if !is_past(place, row, last) => Some(last),
        _ => Some(row),
    }
}

/// The text at this place of the row; it is empty where none stands.
pub(crate) fn text_at(alloc: Global, row: &Version, place: usize) -> Result<Name, Memory>
    ensures { IfOk result (λ text. text ≡ spec.text_at place (values_of row.now)) }
{
    match row.values.as_slice().get(place) {
        Some(stored) => text_in(alloc, stored),
        None => Name::of_str(alloc, ""),
    }
}

fn text_in(alloc: Global, stored: &Option<TypedValue>) -> Result<Name, Memory>
    ensures { IfOk result (λ text. text ≡ spec.text_in (value_or_null stored.now)) }
{
    match stored {
        Some(typed) => text_of(alloc, &typed.value),
        None => Name::of_str(alloc, ""),
    }
}

fn text_of(alloc: Global, value: &Value) -> Result<Name, Memory>
    ensures { IfOk result (λ text. text ≡ spec.text_in value.now) }
{
    match value {
        Value::Text(text) => Name::of_str(alloc, text.as_str()),
        Value::Null | Value::Num { .. } | Value::Bytes(_) | Value::Date(_) => Name::of_str(
            alloc, "",
        ),
    }
}
