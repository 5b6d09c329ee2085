//! Writing values.

ghost use Rattle.std.specs.Prelude.{◌≡◌, ◌++◌, ◌∷◌, [], ◌<◌, ◌≤◌, length, take, replicate, vec_len, slice_index, OnOk, OnErr, MatchOption};
ghost use Rattle.hex.specs.Hex.{encode_upper, upper_digits};
ghost use Rattle.sql_value.specs.Printed as spec;

use crate::day::{LAST_DAY, civil_of, date_digits};
use itoa::Buffer;
use sql_value::{Memory, Value};

/// Appends a value as it is shown: NULL; a number with exactly as many digits behind the point as its scale
/// has, and one or more before it; a text as `N'..'`, each quote in it doubled; bytes as `0x` and upper-case
/// digits; a day as `'YYYY-MM-DD'`, and a number behind the last day as that number in quotes. After want of
/// memory `out` is as before.
#[tactic(auto, unfolding(sql_value::specs::Printed::printed))]
pub fn print(v: &Value, out: &mut Vec<u8>) -> Result<(), Memory>
    ensures ok { OnOk result (out.new.items ≡ out.old.items ++ spec.printed v.now) }
    ensures err { OnErr result (out.new.items ≡ out.old.items) }
{
    let start = out.len();
    let put = put_value(v, b"0", out);
    if put.is_err() {
        out.truncate(start);
    }
    put
}

/// Appends a value as it is written in a statement: as `print` does, save that a number with 38 digits behind
/// the point has none before it, so that `read_literal` takes it if it has no more than 38 digits. After want
/// of memory `out` is as before.
#[tactic(auto, unfolding(sql_value::specs::Printed::literal_text))]
pub fn print_literal(v: &Value, out: &mut Vec<u8>) -> Result<(), Memory>
    ensures ok { OnOk result (out.new.items ≡ out.old.items ++ spec.literal_text v.now) }
    ensures err { OnErr result (out.new.items ≡ out.old.items) }
{
    let start = out.len();
    let put = put_value(v, leading_zero(v), out);
    if put.is_err() {
        out.truncate(start);
    }
    put
}

fn leading_zero(v: &Value) -> &[u8]
    ensures { result.now ≡ spec.leading_zero v.now }
{
    match v {
        Value::Num { s: 38, .. } => b"",
        _ => b"0",
    }
}

/// Appends a value, with `zero` before a point that has no digit before it.
fn put_value(v: &Value, zero: &[u8], out: &mut Vec<u8>) -> Result<(), Memory>
    ensures ok { OnOk result (out.new.items ≡ out.old.items ++ spec.printed_with zero.now v.now) }
    ensures err { OnErr result (take (vec_len out.old) out.new.items ≡ out.old.items) }
{
    match v {
        Value::Null => put(b"NULL", out),
        Value::Num { v, s } => put_number(*v, *s, zero, out),
        Value::Text(text) => put_text(text.as_str(), out),
        Value::Bytes(blob) => put_bytes(blob.bytes(), out),
        Value::Date(day) => put_day(*day, out),
    }
}

fn put(bytes: &[u8], out: &mut Vec<u8>) -> Result<(), Memory>
    ensures ok { OnOk result (out.new.items ≡ out.old.items ++ bytes.now) }
    ensures err { OnErr result (take (vec_len out.old) out.new.items ≡ out.old.items) }
{
    out.extend_from_slice(bytes)?;
    Ok(())
}

fn put_number(v: i128, s: u8, zero: &[u8], out: &mut Vec<u8>) -> Result<(), Memory>
    ensures ok { OnOk result (out.new.items ≡ out.old.items ++ spec.number_text zero.now v s) }
    ensures err { OnErr result (take (vec_len out.old) out.new.items ≡ out.old.items) }
{
    let mut buffer = Buffer::new();
    let digits = buffer.format(v.unsigned_abs()).as_bytes();
    if v < 0 {
        out.push(b'-')?;
    }
    put_pointed(zero, digits, s.into(), out)
}

/// Appends digits with a point before the last `s` of them.
#[tactic(auto, unfolding(sql_value::specs::Printed::pointed))]
fn put_pointed(zero: &[u8], digits: &[u8], s: usize, out: &mut Vec<u8>) -> Result<(), Memory>
    ensures ok { OnOk result (out.new.items ≡ out.old.items ++ spec.pointed zero.now digits.now s) }
    ensures err { OnErr result (take (vec_len out.old) out.new.items ≡ out.old.items) }
{
    if s < digits.len() {
        let (whole, fraction) = digits.split_at(digits.len() - s);
        put(whole, out)?;
        put_fraction(fraction, out)
    } else {
        put(zero, out)?;
        put(b".", out)?;
        put_zeros(s - digits.len(), out)?;
        put(digits, out)
    }
}

fn put_fraction(fraction: &[u8], out: &mut Vec<u8>) -> Result<(), Memory>
    ensures ok { OnOk result (out.new.items ≡ out.old.items ++ spec.behind_point fraction.now) }
    ensures err { OnErr result (take (vec_len out.old) out.new.items ≡ out.old.items) }
{
    if fraction.is_empty() {
        return Ok(());
    }
    put(b".", out)?;
    put(fraction, out)
}

fn put_zeros(count: usize, out: &mut Vec<u8>) -> Result<(), Memory>
    ensures ok { OnOk result (out.new.items ≡ out.old.items ++ replicate count 48) }
    ensures err { OnErr result (take (vec_len out.old) out.new.items ≡ out.old.items) }
{
    for _ in 0..count {
        out.push(b'0')?;
    }
    Ok(())
}

fn put_text(text: &str, out: &mut Vec<u8>) -> Result<(), Memory>
    ensures ok { OnOk result (out.new.items ≡ out.old.items ++ 78 ∷ spec.quoted (spec.doubled text.now)) }
    ensures err { OnErr result (take (vec_len out.old) out.new.items ≡ out.old.items) }
{
    put(b"N'", out)?;
    put_doubled(text, out)?;
    put(b"'", out)
}

/// Appends a text with each quote twice.
fn put_doubled(text: &str, out: &mut Vec<u8>) -> Result<(), Memory>
    ensures ok { OnOk result (out.new.items ≡ out.old.items ++ spec.doubled text.now) }
    ensures err { OnErr result (take (vec_len out.old) out.new.items ≡ out.old.items) }
{
    let mut rest = text;
    while let Some((before, after)) = at_quote(rest) {
        put(before.as_bytes(), out)?;
        put(b"''", out)?;
        rest = after;
    }
    put(rest.as_bytes(), out)
}

/// What stands before and behind the next quote.
fn at_quote(rest: &str) -> Option<(&str, &str)>
    ensures { MatchOption result (spec.doubled rest.now ≡ rest.now)
        (λ p. (spec.doubled rest.now ≡ p.0.now ++ 39 ∷ 39 ∷ spec.doubled p.1.now)
        × (length p.1.now < length rest.now)) }
{
    rest.split_once('\'')
}

fn put_bytes(bytes: &[u8], out: &mut Vec<u8>) -> Result<(), Memory>
    ensures ok { OnOk result (out.new.items ≡ out.old.items ++ 48 ∷ 120 ∷ encode_upper bytes.now) }
    ensures err { OnErr result (take (vec_len out.old) out.new.items ≡ out.old.items) }
{
    put(b"0x", out)?;
    put_hex(bytes, out)
}

fn put_hex(bytes: &[u8], out: &mut Vec<u8>) -> Result<(), Memory>
    ensures ok { OnOk result (out.new.items ≡ out.old.items ++ encode_upper bytes.now) }
    ensures err { OnErr result (take (vec_len out.old) out.new.items ≡ out.old.items) }
{
    out.reserve(2 * bytes.len())?;
    for &byte in bytes {
        put(&[hex_digit(byte / 16), hex_digit(byte % 16)], out)?;
    }
    Ok(())
}

fn hex_digit(n: u8) -> u8
    requires { n < 16 }
    ensures { result ≡ slice_index upper_digits n }
{
    b"0123456789ABCDEF"[n as usize]
}

#[tactic(auto, unfolding(sql_value::specs::Printed::day_text))]
fn put_day(day: u32, out: &mut Vec<u8>) -> Result<(), Memory>
    ensures ok { OnOk result (out.new.items ≡ out.old.items ++ spec.quoted (spec.day_text day)) }
    ensures err { OnErr result (take (vec_len out.old) out.new.items ≡ out.old.items) }
{
    put(b"'", out)?;
    if day <= LAST_DAY {
        put(&date_digits(civil_of(day)), out)?;
    } else {
        put(Buffer::new().format(day).as_bytes(), out)?;
    }
    put(b"'", out)
}
