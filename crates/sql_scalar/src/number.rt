//! Exact whole numbers with a scale, in 128 bits: greater units, and how many digits and bits they have.

ghost use Rattle.std.specs.Prelude.{◌≡◌, ◌<◌, ◌≤◌, ◌^◌, SomeIff, FitsSigned};
ghost use Rattle.std.specs.Int.{w128};
ghost use Rattle.sql_value.specs.Number as spec;
ghost use Rattle.sql_value.specs.Stored.{in_bits, is_bit as spec_is_bit};

use sql_value::raised;

/// A size in units that are greater by so many places: half such a unit counts as one.
#[tactic(auto, unfolding(sql_value::specs::Number::rounded_size))]
fn rounded_size(size: u128, places: u8) -> u128
    requires { size ≤ 2 ^ 127 }
    ensures value { result ≡ spec.rounded_size size places }
    ensures small { 1 ≤ places → result < 2 ^ 124 }
{
    match 10u128.checked_pow(places.into()) {
        Some(unit) => (size + unit / 2) / unit,
        // Such a unit is more than twice the greatest size.
        None => 0,
    }
}

/// A number in units that are greater by so many places, rounded half away from zero.
fn rounded(v: i128, places: u8) -> i128
    ensures { result ≡ spec.rounded v places }
{
    if places == 0 {
        return v;
    }
    let size = rounded_size(v.unsigned_abs(), places);
    if v < 0 { -(size as i128) } else { size as i128 }
}

/// `v` in units of 10^-s, in units of 10^-z: exact, or rounded half away from zero. None where 128
/// bits don't hold it.
pub(crate) fn rescaled(v: i128, s: u8, z: u8) -> Option<i128>
    ensures { SomeIff result (FitsSigned w128 (spec.rescaled v s z)) (spec.rescaled v s z) }
{
    if s <= z {
        raised(v, z - s)
    } else {
        Some(rounded(v, s - z))
    }
}

/// Whether the number has at most so many digits.
pub(crate) fn has_digits(v: i128, p: u32) -> bool
    ensures { result ≡ spec.has_digits v p }
{
    match 10u128.checked_pow(p) {
        Some(limit) => v.unsigned_abs() < limit,
        None => true,
    }
}

/// Whether the number is one of 32 bits.
pub(crate) fn is_int(v: i128) -> bool
    ensures { result ≡ in_bits 31 v }
{
    i128::from(i32::MIN) <= v && v <= i128::from(i32::MAX)
}

/// Whether the number is one of 64 bits.
pub(crate) fn is_big_int(v: i128) -> bool
    ensures { result ≡ in_bits 63 v }
{
    i128::from(i64::MIN) <= v && v <= i128::from(i64::MAX)
}

/// Whether the number is 0 or 1.
pub(crate) fn is_bit(v: i128) -> bool
    ensures { result ≡ spec_is_bit v }
{
    v == 0 || v == 1
}
