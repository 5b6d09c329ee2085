//! Reading a value under its type.

ghost use Rattle.std.specs.Prelude.{◌≡◌, ◌<◌};
ghost use Rattle.std.specs.Int.{w8, w32, w64};
ghost use Rattle.base_fields.specs.Readers.{signed, i128_at};
ghost use Rattle.base_fields.specs.Reading.{ReadsAs};
ghost use Rattle.format_event.specs.LeafReading.{value_of, number_of, text_of, day_of};
ghost use Rattle.format_event.specs.Leaf.{second_parameter};

use base_fields::{ReadError, i128_at, u32_at};
use base_types::{Blob, Text};
use sql_value::{SqlType, Value};
use std::alloc::Global;

/// The value of this type that the bytes spell. Whether it is in the range of the type is tested elsewhere.
#[tactic(auto, unfolding(crate::specs::LeafReading::value_of))]
pub(crate) fn value_of(alloc: Global, ty: SqlType, bytes: &[u8]) -> Result<Value, ReadError>
    requires { second_parameter ty < 256 }
    ensures { ReadsAs (λ v. v) result (value_of ty bytes.now) }
{
    match ty {
        SqlType::Bit => bit_of(bytes),
        SqlType::Int => int_of(bytes),
        SqlType::BigInt => big_int_of(bytes),
        SqlType::Decimal { s, .. } => decimal_of(s, bytes),
        SqlType::NVarChar { .. } => text_of(alloc, bytes),
        SqlType::VarBinary { .. } => {
            let bytes = Blob::of(alloc, bytes)?;
            Ok(Value::Bytes(bytes))
        }
        SqlType::Date => day_of(bytes),
    }
}

fn bit_of(bytes: &[u8]) -> Result<Value, ReadError>
    ensures { ReadsAs (λ v. v) result (number_of (signed w8) 0 bytes.now) }
{
    let [a] = bytes else {
        return Err(ReadError::Malformed);
    };
    let v = i8::from_be_bytes([*a]).into();
    Ok(Value::Num { v, s: 0 })
}

fn int_of(bytes: &[u8]) -> Result<Value, ReadError>
    ensures { ReadsAs (λ v. v) result (number_of (signed w32) 0 bytes.now) }
{
    let [a, b, c, d] = bytes else {
        return Err(ReadError::Malformed);
    };
    let v = i32::from_be_bytes([*a, *b, *c, *d]).into();
    Ok(Value::Num { v, s: 0 })
}

fn big_int_of(bytes: &[u8]) -> Result<Value, ReadError>
    ensures { ReadsAs (λ v. v) result (number_of (signed w64) 0 bytes.now) }
{
    let [a, b, c, d, e, f, g, h] = bytes else {
        return Err(ReadError::Malformed);
    };
    let v = i64::from_be_bytes([*a, *b, *c, *d, *e, *f, *g, *h]).into();
    Ok(Value::Num { v, s: 0 })
}

fn decimal_of(s: u32, bytes: &[u8]) -> Result<Value, ReadError>
    requires { s < 256 }
    ensures { ReadsAs (λ v. v) result (number_of i128_at s bytes.now) }
{
    let (v, rest) = i128_at(bytes)?;
    if !rest.is_empty() {
        return Err(ReadError::Malformed);
    }
    Ok(Value::Num { v, s: s as u8 })
}

fn text_of(alloc: Global, bytes: &[u8]) -> Result<Value, ReadError>
    ensures { ReadsAs (λ v. v) result (text_of bytes.now) }
{
    match std::str::from_utf8(bytes) {
        Ok(text) => {
            let text = Text::of_str(alloc, text)?;
            Ok(Value::Text(text))
        }
        Err(_) => Err(ReadError::Malformed),
    }
}

fn day_of(bytes: &[u8]) -> Result<Value, ReadError>
    ensures { ReadsAs (λ v. v) result (day_of bytes.now) }
{
    let (day, rest) = u32_at(bytes)?;
    if !rest.is_empty() {
        return Err(ReadError::Malformed);
    }
    Ok(Value::Date(day))
}
