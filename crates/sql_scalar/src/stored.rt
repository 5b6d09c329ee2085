//! Which values a type stores.

ghost use Rattle.std.specs.Prelude.{◌≡◌};
ghost use Rattle.sql_value.specs.Stored as spec;

use crate::day::LAST_DAY;
use crate::number::{has_digits, is_big_int, is_bit, is_int};
use crate::text::units_of;
use sql_value::{SqlType, Value};

/// Whether a column of the type may hold the value, NULL among them. A type outside its ranges
/// holds NULL alone.
#[tactic(auto, unfolding(sql_value::specs::Stored::is_stored))]
pub fn fits(v: &Value, t: &SqlType) -> bool
    ensures { result ≡ spec.is_stored v.now t.now }
{
    match v {
        Value::Null => true,
        Value::Num { v, s } => t.is_in_range() && number_fits(*v, *s, t),
        Value::Text(text) => t.is_in_range() && text_fits(text.as_str(), t),
        Value::Bytes(blob) => t.is_in_range() && bytes_fit(blob.bytes(), t),
        Value::Date(day) => t.is_in_range() && day_fits(*day, t),
    }
}

fn number_fits(v: i128, s: u8, t: &SqlType) -> bool
    ensures { result ≡ spec.number_stored t.now v s }
{
    match t {
        SqlType::Bit => s == 0 && is_bit(v),
        SqlType::Int => s == 0 && is_int(v),
        SqlType::BigInt => s == 0 && is_big_int(v),
        SqlType::Decimal { p, s: z } => u32::from(s) == *z && has_digits(v, *p),
        _ => false,
    }
}

fn text_fits(text: &str, t: &SqlType) -> bool
    ensures { result ≡ spec.text_stored t.now text.now }
{
    match t {
        SqlType::NVarChar { n } => units_of(text) <= *n as usize,
        _ => false,
    }
}

fn bytes_fit(bytes: &[u8], t: &SqlType) -> bool
    ensures { result ≡ spec.bytes_stored t.now bytes.now }
{
    match t {
        SqlType::VarBinary { n } => bytes.len() <= *n as usize,
        _ => false,
    }
}

fn day_fits(day: u32, t: &SqlType) -> bool
    ensures { result ≡ spec.day_stored t.now day }
{
    match t {
        SqlType::Date => day <= LAST_DAY,
        _ => false,
    }
}
