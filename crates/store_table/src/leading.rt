//! Leads of rows in the order of an index: numbers by which their places are guessed.

use sql_parts::Valued;
use sql_value::Value;
use store_order::Lead;

// The leads of numbers stay between these.
const LEAST: i128 = i64::MIN as i128;

const MOST: i128 = i64::MAX as i128;

// How many bytes of a text a number takes.
const BYTES: usize = 7;

/// The lead of a row: that of its first two values in the order of the index, of its columns and then of the
/// key. Where the values are of one type, it mostly doesn't fall from one row to the next. No clause says so:
/// it is a guess.
pub(crate) fn lead_of<R: Valued>(ordinals: &[u16], key: &[usize], row: &R) -> Lead {
    let first = value_in_order(ordinals, key, row, 0);
    let second = value_in_order(ordinals, key, row, 1);
    lead_of_values(first, second)
}

/// The lead of a key in key order.
pub(crate) fn lead_of_key(key: &[Value]) -> Lead {
    lead_of_values(key.first(), key.get(1))
}

// The value with so many others before it in the order of the index, where it has so many.
fn value_in_order<'a, R: Valued>(
    ordinals: &[u16],
    key: &[usize],
    row: &'a R,
    before: usize,
) -> Option<&'a Value> {
    let place = match ordinals.get(before) {
        Some(ordinal) => (*ordinal).saturating_sub(1) as usize,
        None => *key.get(before.saturating_sub(ordinals.len()))?,
    };
    row.value_at(place)
}

// The lead of these values. Where the first is longer than a number takes, its rest stands for the next.
fn lead_of_values(first: Option<&Value>, next: Option<&Value>) -> Lead {
    Lead {
        first: number_of(first),
        second: match rest_of(first) {
            Some(rest) => rest,
            None => number_of(next),
        },
    }
}

// A value as a number: the digits of a number, the first bytes of a text and of bytes. None is as null.
fn number_of(value: Option<&Value>) -> i64 {
    match value {
        None | Some(Value::Null) => i64::MIN,
        Some(Value::Num { v, .. }) => (*v).max(LEAST).min(MOST) as i64,
        Some(Value::Text(text)) => number_of_bytes(text.bytes(), 0),
        Some(Value::Bytes(blob)) => number_of_bytes(blob.bytes(), 0),
        Some(Value::Date(day)) => i64::from(*day),
    }
}

// Of a text and of bytes, those behind the first as a number, where there are more.
fn rest_of(value: Option<&Value>) -> Option<i64> {
    let bytes = match value? {
        Value::Text(text) => text.bytes(),
        Value::Bytes(blob) => blob.bytes(),
        _ => return None,
    };
    if bytes.len() > BYTES {
        Some(number_of_bytes(bytes, BYTES))
    } else {
        None
    }
}

// The bytes from this place on as a number, so many as it takes.
fn number_of_bytes(bytes: &[u8], from: usize) -> i64 {
    let mut number: i64 = 0;
    for place in 0..BYTES {
        let byte = bytes.get(from.saturating_add(place)).copied().unwrap_or(0);
        number = number.wrapping_mul(256).wrapping_add(i64::from(byte));
    }
    number
}
