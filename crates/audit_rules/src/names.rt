//! Names of what was dropped.

ghost use Rattle.std.specs.Prelude.{◌≡◌, IfOk, string_bytes, unwrap_or};
ghost use Rattle.std.specs.Option.{option_copied};
ghost use Rattle.sql_value.specs.declared.value.Value.TheVariants.{Null, Text as TextOf};
ghost use Rattle.spec_model.specs.Alter as alter;
ghost use Rattle.spec_model.specs.Keys.{value_at};
ghost use Rattle.spec_rules.specs.Rows as spec;
ghost use Rattle.audit_rules.specs.Seen.{row_of};

use crate::rows::PlacedVersion;
use base_types::Memory;
use sql_parts::{Valued, compare_values};
use sql_value::Value;
use std::alloc::{AllocError, Global};

/// The name of what was dropped, by the name that it had and a number that no other has.
fn dropped_name(alloc: Global, what: &str, name: &str, number: u128) -> Result<String, AllocError>
    ensures { IfOk result (λ text. string_bytes text ≡ alter.dropped_name what.now name.now number) }
{
    Ok(format!(in alloc; "MSSQL_DroppedLedger{what}_{name}_{number}")?)
}

/// Whether the value is this text.
#[tactic(auto, unfolding(sql_value::specs::Order::value_cmp))]
fn is_text(value: Option<&Value>, text: &[u8]) -> bool
    ensures { result ≡ spec.same_value (unwrap_or (option_copied value.entry) Null) (TextOf text.now) }
{
    match value {
        Some(Value::Text(own)) => own.bytes().cmp(text).is_eq(),
        None | Some(Value::Null | Value::Num { .. } | Value::Bytes(_) | Value::Date(_)) => false,
    }
}

/// Whether the second value is the name of what was dropped and had the first for its name, of which none gives none.
fn is_name_of_dropped(
    alloc: Global,
    what: &str,
    number: u128,
    before: Option<&Value>,
    after: Option<&Value>,
) -> Result<bool, Memory>
    ensures { IfOk result (λ is. is ≡ spec.same_value (unwrap_or (option_copied after.entry) Null)
        (spec.dropped_text what.now (unwrap_or (option_copied before.entry) Null) number)) }
{
    match before {
        Some(Value::Text(name)) => {
            let text = dropped_name(alloc, what, name.as_str(), number)?;
            Ok(is_text(after, text.as_bytes()))
        }
        None | Some(Value::Null | Value::Num { .. } | Value::Bytes(_) | Value::Date(_)) => {
            Ok(compare_values(after, None).is_eq())
        }
    }
}

/// The whole number at this place of the row; 0, where none stands that isn't negative.
fn count_at(row: &PlacedVersion, at: usize) -> u128
    ensures { result ≡ alter.count_in (value_at (row_of row.now).row at) }
{
    match row.version.values.as_slice().get(at) {
        Some(Some(typed)) => count_in(&typed.value),
        Some(None) | None => 0,
    }
}

fn count_in(value: &Value) -> u128
    ensures { result ≡ alter.count_in value.now }
{
    match value {
        Value::Num { v, .. } => { if *v < 0 { 0 } else { *v as u128 } }
        Value::Null | Value::Text(_) | Value::Bytes(_) | Value::Date(_) => 0,
    }
}

/// Which name of a row, and what it is a name of.
#[derive(Clone, Copy)]
pub(crate) struct NameOf<'a> {
    pub what: &'a str,
    /// The place of the name in the row.
    pub at: usize,
    /// The place of the number that is in the names of what was dropped.
    pub number: usize,
}

/// Whether the second row has the name that dropping gives to the one of the first.
pub(crate) fn has_name_of_dropped(
    alloc: Global,
    name: &NameOf,
    first: &PlacedVersion,
    second: &PlacedVersion,
) -> Result<bool, Memory>
    ensures { IfOk result (λ has. has ≡ spec.same_value (value_at (row_of second.now).row name.now.at)
        (spec.dropped_text name.now.what.now (value_at (row_of first.now).row name.now.at)
        (alter.count_in (value_at (row_of second.now).row name.now.number)))) }
{
    let number = count_at(second, name.number);
    let before = first.version.value_at(name.at);
    let after = second.version.value_at(name.at);
    is_name_of_dropped(alloc, name.what, number, before, after)
}
