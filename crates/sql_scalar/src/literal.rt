//! Reading literals.

ghost use Rattle.std.specs.Prelude.{◌≡◌, ◌+◌, ◌*◌, ◌^◌, ◌<◌, ◌≤◌, ℕ, List, length, position, false, None, IfSome, MatchOption};
ghost use Rattle.std.specs.Option.{option_copied};
ghost use Rattle.std.specs.Result.{result_ok};
ghost use Rattle.hex.specs.Hex.{decode_of};
ghost use Rattle.sql_value.specs.Literal as spec;
ghost use Rattle.sql_value.specs.Literal.{unquoted_from};
ghost use Rattle.sql_scalar.specs.Pieces.{IsPiece};

use hex::FromHexError;
use sql_value::{Blob, LitErr, Text, Value};
use std::alloc::Global;

/// The most digits that a number is written with.
const MOST_DIGITS: usize = 38;

/// The value that a text writes as a literal: NULL in any case; a number, with or without a sign and a
/// point, of at most 38 digits; a text in single quotes, each quote in it doubled, with or without an N
/// before it; or bytes as `0x` and an even number of hexadecimal digits. No blank stands anywhere but between
/// the quotes of a text, and each other text is `NotLiteral`.
#[tactic(auto, unfolding(sql_value::specs::Literal::literal_of))]
pub fn read_literal(alloc: Global, text: &str) -> Result<Value, LitErr>
    ensures { spec.ReadsLiteralUnlessOom (spec.literal_of text.now) result }
{
    if let Some(quoted) = after_opening(text) {
        return Ok(Value::Text(unquoted(alloc, quoted)?));
    }
    if let Some(digits) = after_0x(text.as_bytes()) {
        return Ok(Value::Bytes(hex_bytes(alloc, digits)?));
    }
    if text.eq_ignore_ascii_case("NULL") {
        return Ok(Value::Null);
    }
    signed(text.as_bytes()).ok_or(LitErr::NotLiteral)
}

/// What stands behind the quote that begins a text, with or without an N before it.
fn after_opening(text: &str) -> Option<&str>
    ensures { option_copied result ≡ spec.after_opening text.now }
{
    match after_quote(text) {
        Some(quoted) => Some(quoted),
        None => after_quote(after_n(text)?),
    }
}

fn after_quote(text: &str) -> Option<&str>
    ensures { option_copied result ≡ spec.after_quote text.now }
{
    text.strip_prefix('\'')
}

fn after_n(text: &str) -> Option<&str>
    ensures { option_copied result ≡ spec.after_n text.now }
{
    match text.strip_prefix('N') {
        Some(rest) => Some(rest),
        None => text.strip_prefix('n'),
    }
}

/// What stands behind `0x` or `0X`.
fn after_0x(text: &[u8]) -> Option<&[u8]>
    ensures { option_copied result ≡ spec.after_0x text.now }
{
    match text {
        [b'0', b'x' | b'X', digits @ ..] => Some(digits),
        _ => None,
    }
}

/// The bytes of hexadecimal digits in either case.
fn hex_bytes(alloc: Global, digits: &[u8]) -> Result<Blob, LitErr>
    ensures { spec.ReadsLiteralUnlessOom (result_ok (decode_of digits.now)) result }
{
    match hex::decode(alloc, digits) {
        Ok(bytes) => Ok(Blob::from_vec(bytes)),
        Err(FromHexError::OutOfMemory) => Err(LitErr::Memory),
        Err(_) => Err(LitErr::NotLiteral),
    }
}

/// A number, with or without a sign.
#[tactic(auto, unfolding(sql_value::specs::Literal::signed))]
fn signed(text: &[u8]) -> Option<Value>
    ensures { result ≡ spec.signed text.now }
{
    match text {
        [b'-', rest @ ..] => {
            let (size, s) = unsigned(rest)?;
            Some(Value::Num {
                v: -(size as i128),
                s,
            })
        }
        [b'+', rest @ ..] => {
            let (size, s) = unsigned(rest)?;
            Some(Value::Num { v: size as i128, s })
        }
        [] => None,
        _ => {
            let (size, s) = unsigned(text)?;
            Some(Value::Num { v: size as i128, s })
        }
    }
}

/// The size and the scale of `digits`, `digits.digits` or `.digits`.
#[tactic(auto, unfolding(sql_value::specs::Literal::unsigned))]
fn unsigned(text: &[u8]) -> Option<(u128, u8)>
    ensures value { result ≡ spec.unsigned text.now }
    ensures small { IfSome result (λ n. n.0 < 10 ^ 38) }
{
    match point_of(text) {
        Some(at) => with_point(&text[..at], &text[at + 1..]),
        None if text.is_empty() => None,
        None => sized(text, &[]),
    }
}

/// The place of the first point.
fn point_of(text: &[u8]) -> Option<usize>
    ensures { result ≡ position spec.is_point text.now }
{
    text.iter().position(|&b| b == b'.')
}

fn with_point(whole: &[u8], fraction: &[u8]) -> Option<(u128, u8)>
    ensures value { result ≡ spec.with_point whole.now fraction.now }
    ensures small { IfSome result (λ n. n.0 < 10 ^ 38) }
{
    if fraction.is_empty() {
        None
    } else {
        sized(whole, fraction)
    }
}

/// The size and the scale that digits before and behind a point write.
#[tactic(auto, unfolding(sql_value::specs::Literal::sized))]
fn sized(whole: &[u8], fraction: &[u8]) -> Option<(u128, u8)>
    ensures value { result ≡ spec.sized whole.now fraction.now }
    ensures small { IfSome result (λ n. n.0 < 10 ^ 38) }
{
    if whole.len() + fraction.len() > MOST_DIGITS {
        return None;
    }
    let size = digits_after(0, whole)?;
    let size = digits_after(size, fraction)?;
    Some((size, fraction.len() as u8))
}

/// The number that digits write behind those of `start`.
fn digits_after(start: u128, digits: &[u8]) -> Option<u128>
    requires { (start + 1) * 10 ^ length digits.now ≤ 10 ^ 38 }
    ensures value { result ≡ spec.digits_after start digits.now }
    ensures small { IfSome result (λ n. n + 1 ≤ (start + 1) * 10 ^ length digits.now) }
{
    let mut number = start;
    for &digit in digits {
        if !digit.is_ascii_digit() {
            return None;
        }
        number = number * 10 + u128::from(digit - b'0');
    }
    Some(number)
}

/// What a text says, of what stands behind its first quote.
#[tactic(auto, unfolding(sql_value::specs::Literal::unquoted))]
fn unquoted(alloc: Global, quoted: &str) -> Result<Text, LitErr>
    ensures { spec.ReadsLiteralUnlessOom (spec.unquoted quoted.now) result }
{
    let mut text = String::new(alloc);
    let mut rest = quoted;
    while let Some((piece, more)) = next_piece(rest) {
        text.push_str(piece)?;
        match more {
            Some(more) => {
                text.push('\'')?;
                rest = more;
            }
            None => return Ok(Text::from_string(text)),
        }
    }
    Err(LitErr::NotLiteral)
}

/// What stands before the next quote, and behind it where it is doubled. None where no quote ends the text,
/// or something stands behind one that isn't doubled.
fn next_piece(rest: &str) -> Option<(&str, Option<&str>)>
    ensures { MatchOption result ((before : List ℕ) → unquoted_from false before rest.now ≡ None)
        (λ p. IsPiece rest.now p.0.now (option_copied p.1)) }
{
    let (piece, after) = rest.split_once('\'')?;
    if after.is_empty() {
        return Some((piece, None));
    }
    let more = after_quote(after)?;
    Some((piece, Some(more)))
}
