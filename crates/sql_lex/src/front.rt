//! The longest token at the front of some bytes.

ghost use Rattle.std.specs.Prelude.{◌≡◌, ◌≢◌, ◌<◌, ◌≤◌, ◌+◌, ◌-◌, ◌^◌, length, drop, min, slice_index, IfSome, true, false, None};
ghost use Rattle.std.specs.List.{prefix_len};
ghost use Rattle.std.specs.Char.{is_ascii_digit};
ghost use Rattle.sql_lex.specs.Front as spec;
ghost use Rattle.sql_lex.specs.Longest as token;

use crate::token::Kind;

/// The most digits that a number has.
const MAX_DIGITS: usize = 38;

#[derive(Clone, Copy, Debug)]
enum Class {
    WordStart,
    Word,
    Hex,
    Inside,
}

fn is_in(class: Class, b: u8) -> bool
    ensures { result ≡ spec.is_in class b }
{
    match class {
        Class::WordStart => b.is_ascii_alphabetic() || b == b'_',
        Class::Word => b.is_ascii_alphanumeric() || b == b'_',
        Class::Hex => b.is_ascii_hexdigit(),
        Class::Inside => 32 <= b && b <= 126 && b != b'[' && b != b']',
    }
}

/// The byte at a place, or 0 past the end.
pub(crate) fn byte(z: &[u8], at: usize) -> u8
    ensures value { result ≡ slice_index z.now at }
    ensures within { result ≢ 0 → at < length z.now }
{
    if at < z.len() { z[at] } else { 0 }
}

// The first place from `at` on whose byte is not of the class.
fn past(class: Class, z: &[u8], at: usize) -> usize
    requires { at ≤ length z.now }
    ensures value { result ≡ spec.past class z.now at }
    ensures within { (at ≤ result) × (result ≤ length z.now) }
    ensures moves { at < length z.now → spec.is_in class (slice_index z.now at) ≡ true → at < result }
{
    let mut end = at;
    while end < z.len() && is_in(class, z[end]) {
        end += 1;
    }
    end
}

// How many digits stand from `at` on, if no more than `most`.
fn digits(z: &[u8], at: usize, most: usize) -> usize
    requires { at ≤ length z.now }
    ensures value { result ≡ min most (prefix_len is_ascii_digit (drop at z.now)) }
    ensures within { at + result ≤ length z.now }
    ensures moves { at < length z.now → 0 < most → is_ascii_digit (slice_index z.now at) ≡ true → 0 < result }
{
    let mut count = 0;
    while count < most && at + count < z.len() && z[at + count].is_ascii_digit() {
        count += 1;
    }
    count
}

fn number(z: &[u8]) -> Option<usize>
    ensures value { result ≡ spec.number z.now }
    ensures within { IfSome result (λ end. (1 ≤ end) × (end ≤ length z.now)) }
{
    let whole = digits(z, 0, MAX_DIGITS);
    if whole < MAX_DIGITS && byte(z, whole) == b'.' && byte(z, whole + 1).is_ascii_digit() {
        let point = whole + 1;
        return Some(point + digits(z, point, MAX_DIGITS - whole));
    }
    if whole == 0 { None } else { Some(whole) }
}

fn bytes(z: &[u8]) -> Option<usize>
    ensures value { result ≡ spec.bytes z.now }
    ensures within { IfSome result (λ end. (1 ≤ end) × (end ≤ length z.now)) }
{
    let x = byte(z, 1);
    if byte(z, 0) == b'0' && (x == b'x' || x == b'X') {
        let hex = past(Class::Hex, z, 2) - 2;
        Some(2 + hex - hex % 2)
    } else {
        None
    }
}

// The place behind the last quote that can close the text whose inside begins at `first`. A doubled quote may
// have no closing one behind it, and then its first half closes the text.
fn closing(mut z: &[u8], first: usize) -> Option<usize>
    requires start { first ≤ 2 }
    requires room { length z.now < 2 ^ 63 }
    ensures value { result ≡ spec.closing false None first z.entry.now }
    ensures within { IfSome result (λ end. (1 ≤ end) × (end ≤ length z.entry.now + first)) }
{
    let mut best = None;
    let mut is_second = false;
    let mut at = first;
    while let [b, rest @ ..] = z {
        let is_quote = *b == b'\'';
        if is_second && !is_quote {
            return best;
        }
        is_second = !is_second && is_quote;
        at += 1;
        if is_second {
            best = Some(at);
        }
        z = rest;
    }
    best
}

fn text(z: &[u8]) -> Option<usize>
    requires { length z.now < 2 ^ 63 }
    ensures value { result ≡ spec.text z.now }
    ensures within { IfSome result (λ end. (1 ≤ end) × (end ≤ length z.now)) }
{
    match z {
        [b'\'', rest @ ..] => closing(rest, 1),
        [b'N' | b'n', b'\'', rest @ ..] => closing(rest, 2),
        _ => None,
    }
}

fn word(z: &[u8]) -> Option<usize>
    ensures value { result ≡ spec.word z.now }
    ensures within { IfSome result (λ end. (1 ≤ end) × (end ≤ length z.now)) }
{
    if is_in(Class::WordStart, byte(z, 0)) {
        Some(past(Class::Word, z, 0))
    } else {
        None
    }
}

fn bracketed(z: &[u8]) -> Option<usize>
    ensures value { result ≡ spec.bracketed z.now }
    ensures within { IfSome result (λ end. (1 ≤ end) × (end ≤ length z.now)) }
{
    if byte(z, 0) != b'[' {
        return None;
    }
    let end = past(Class::Inside, z, 1);
    if 1 < end && byte(z, end) == b']' {
        Some(end + 1)
    } else {
        None
    }
}

fn sign(z: &[u8]) -> Option<usize>
    ensures value { result ≡ spec.sign z.now }
    ensures within { IfSome result (λ end. (1 ≤ end) × (end ≤ length z.now)) }
{
    match (byte(z, 0), byte(z, 1)) {
        (b'<', b'>' | b'=') | (b'>' | b'!', b'=') => Some(2),
        (b'(' | b')' | b',' | b';' | b'=' | b'<' | b'>' | b'+' | b'-' | b'*' | b'.', _) => Some(1),
        _ => None,
    }
}

// The token of the first kind that has one. No later kind has a longer one.
#[tactic(auto, unfolding(crate::specs::Front::front))]
fn front(z: &[u8]) -> Option<(Kind, usize)>
    requires { length z.now < 2 ^ 63 }
    ensures value { result ≡ spec.front z.now }
    ensures within { IfSome result (λ t. (1 ≤ t.1) × (t.1 ≤ length z.now)) }
{
    if let Some(len) = bytes(z) {
        return Some((Kind::Bytes, len));
    }
    if let Some(len) = number(z) {
        return Some((Kind::Number, len));
    }
    if let Some(len) = text(z) {
        return Some((Kind::Text, len));
    }
    if let Some(len) = word(z) {
        return Some((Kind::Word, len));
    }
    if let Some(len) = bracketed(z) {
        return Some((Kind::Bracketed, len));
    }
    let len = sign(z)?;
    Some((Kind::Sign, len))
}

/// The longest token at the front: its kind and its length.
#[tactic(auto, using(crate::proofs::Found::front_is))]
pub(crate) fn longest(z: &[u8]) -> Option<(Kind, usize)>
    requires { length z.now < 2 ^ 63 }
    ensures value { result ≡ token.longest z.now }
    ensures within { IfSome result (λ t. (1 ≤ t.1) × (t.1 ≤ length z.now)) }
{
    front(z)
}
