//! Outcomes whose texts and bytes stay where they lie.

ghost use Rattle.std.specs.Prelude.{◌≡◌, IfOk};
ghost use Rattle.sql_types.specs.declared.outcome.Outcome.TheVariants as out;
ghost use Rattle.sql_value.specs.declared.value.Value.TheVariants.{Num};
ghost use Rattle.sql_expr.specs.OutcomeRef.{outcome_of};

use crate::arithmetic::Number;
use sql_types::Outcome;
use sql_value::{Blob, Memory, Text, Value};

/// What an expression gives, with texts and bytes borrowed from the expression or the row.
#[derive(Clone, Copy, Debug)]
pub enum OutcomeRef<'a> {
    Null,
    /// The number `v` in units of 10^-s.
    Number { v: i128, s: u8 },
    Text(&'a Text),
    Bytes(&'a Blob),
    Day(u32),
    Truth(Option<bool>),
}

/// A value, seen where it lies.
pub(crate) fn value_ref(value: &Value) -> OutcomeRef<'_>
    ensures { outcome_of result ≡ out.Value value.now }
{
    match value {
        Value::Null => OutcomeRef::Null,
        Value::Num { v, s } => OutcomeRef::Number { v: *v, s: *s },
        Value::Text(text) => OutcomeRef::Text(text),
        Value::Bytes(blob) => OutcomeRef::Bytes(blob),
        Value::Date(day) => OutcomeRef::Day(*day),
    }
}

/// A number, seen.
pub(crate) fn number_ref<'a>(number: Number) -> OutcomeRef<'a>
    ensures { outcome_of result ≡ out.Value (Num number.s number.v) }
{
    OutcomeRef::Number {
        v: number.v,
        s: number.s,
    }
}

/// An outcome of its own; only a text or bytes take memory.
pub(crate) fn owned(seen: OutcomeRef<'_>) -> Result<Outcome, Memory>
    ensures { IfOk result (λ o. o ≡ outcome_of seen.entry) }
{
    Ok(match seen {
        OutcomeRef::Null => Outcome::Value(Value::Null),
        OutcomeRef::Number { v, s } => Outcome::Value(Value::Num { v, s }),
        OutcomeRef::Text(text) => Outcome::Value(Value::Text(text.copy()?)),
        OutcomeRef::Bytes(blob) => Outcome::Value(Value::Bytes(blob.copy()?)),
        OutcomeRef::Day(day) => Outcome::Value(Value::Date(day)),
        OutcomeRef::Truth(truth) => Outcome::Truth(truth),
    })
}
