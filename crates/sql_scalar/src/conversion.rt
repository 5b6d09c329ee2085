//! What a column makes of a value.

ghost use Rattle.std.specs.Prelude.{◌≡◌, ◌≤◌, IsTrue};
ghost use Rattle.sql_value.specs.Conversion as spec;
ghost use Rattle.sql_value.specs.Number as number;
ghost use Rattle.sql_value.specs.Stored.{is_in_range};
ghost use Rattle.sql_value.specs.declared.value.Value.TheVariants.{Num};
ghost use Rattle.sql_value.specs.declared.refusal.ValueErr.TheVariants.{OutOfRange};

use crate::day::{LAST_DAY, day_of};
use crate::number::{has_digits, is_big_int, is_int, rescaled};
use crate::text::units_of;
use sql_value::{Blob, SqlType, Text, Value, ValueErr};

/// The value that a column of the type takes in place of `v`.
///
/// NULL stays. A whole number becomes 0 or 1 for BIT, and stays itself for INT and BIGINT. Any number is
/// rounded for DECIMAL to its places, half away from zero. A text stays itself for NVARCHAR, and for DATE is
/// read as `YYYY-MM-DD`. Bytes and days stay themselves. All else, and each other value for a type outside
/// its ranges, is a `Mismatch`; a number that the type doesn't have is `OutOfRange`, and a text or bytes
/// beyond its length are `TooLong`.
#[tactic(auto, unfolding(sql_value::specs::Conversion::conversion_of))]
pub fn to_column(v: Value, t: &SqlType) -> Result<Value, ValueErr>
    ensures { result ≡ spec.conversion_of v t.now }
{
    match v {
        Value::Null => Ok(Value::Null),
        _ if !t.is_in_range() => Err(ValueErr::Mismatch),
        Value::Num { v, s } => number_to(v, s, t),
        Value::Text(text) => text_to(text, t),
        Value::Bytes(blob) => bytes_to(blob, t),
        Value::Date(day) => day_to(day, t),
    }
}

fn number_to(v: i128, s: u8, t: &SqlType) -> Result<Value, ValueErr>
    requires { IsTrue (is_in_range t.now) }
    ensures { result ≡ spec.number_to t.now v s }
{
    match t {
        SqlType::Decimal { p, s: z } => decimal_to(*p, *z as u8, v, s),
        _ if s != 0 => Err(ValueErr::Mismatch),
        _ => whole_to(v, t),
    }
}

fn decimal_to(p: u32, z: u8, v: i128, s: u8) -> Result<Value, ValueErr>
    requires { p ≤ 38 }
    ensures { result
        ≡ spec.only_if (number.has_digits (number.rescaled v s z) p) OutOfRange
        (Num z (number.rescaled v s z)) }
{
    match rescaled(v, s, z) {
        Some(v) if has_digits(v, p) => Ok(Value::Num { v, s: z }),
        Some(_) => Err(ValueErr::OutOfRange),
        None => Err(ValueErr::OutOfRange),
    }
}

fn whole_to(v: i128, t: &SqlType) -> Result<Value, ValueErr>
    ensures { result ≡ spec.whole_to t.now v }
{
    match t {
        SqlType::Bit => Ok(Value::Num {
            v: i128::from(v != 0),
            s: 0,
        }),
        SqlType::Int if is_int(v) => Ok(Value::Num { v, s: 0 }),
        SqlType::BigInt if is_big_int(v) => Ok(Value::Num { v, s: 0 }),
        SqlType::Int | SqlType::BigInt => Err(ValueErr::OutOfRange),
        _ => Err(ValueErr::Mismatch),
    }
}

fn text_to(text: Text, t: &SqlType) -> Result<Value, ValueErr>
    ensures { result ≡ spec.text_to t.now text }
{
    match t {
        SqlType::NVarChar { n } if units_of(text.as_str()) <= *n as usize => Ok(Value::Text(text)),
        SqlType::NVarChar { .. } => Err(ValueErr::TooLong),
        SqlType::Date => match day_of(text.bytes()) {
            Some(day) => Ok(Value::Date(day)),
            None => Err(ValueErr::Mismatch),
        },
        _ => Err(ValueErr::Mismatch),
    }
}

fn bytes_to(blob: Blob, t: &SqlType) -> Result<Value, ValueErr>
    ensures { result ≡ spec.bytes_to t.now blob }
{
    match t {
        SqlType::VarBinary { n } if blob.bytes().len() <= *n as usize => Ok(Value::Bytes(blob)),
        SqlType::VarBinary { .. } => Err(ValueErr::TooLong),
        _ => Err(ValueErr::Mismatch),
    }
}

fn day_to(day: u32, t: &SqlType) -> Result<Value, ValueErr>
    ensures { result ≡ spec.day_to t.now day }
{
    match t {
        SqlType::Date if day <= LAST_DAY => Ok(Value::Date(day)),
        _ => Err(ValueErr::Mismatch),
    }
}
