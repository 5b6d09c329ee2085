//! What values show is UTF-8.

ghost use Rattle.std.specs.Prelude.{IsUtf8};
ghost use Rattle.sql_value.specs.declared.value.Value.TheVariants.{Date, Num};
ghost use Rattle.sql_value.specs.Printed.{printed};

use sql_scalar::days_are_read_back;
use sql_value::Value;

/// What a number shows is UTF-8. Does nothing.
fn number_shows_utf8(v: i128, s: u8)
    ensures { IsUtf8 (printed (Num s v)) }
{}

/// What a day shows is UTF-8. Does nothing.
fn day_shows_utf8(day: u32)
    ensures { IsUtf8 (printed (Date day)) }
{
    days_are_read_back();
}

/// What a value shows is UTF-8. Does nothing: it is there for its contract.
pub(crate) fn shows_utf8(value: &Value)
    ensures { IsUtf8 (printed value.now) }
{
    match value {
        Value::Null => {}
        Value::Num { v, s } => number_shows_utf8(*v, *s),
        Value::Text(text) => {
            text.as_str();
        }
        Value::Bytes(_) => {}
        Value::Date(day) => day_shows_utf8(*day),
    }
}
