//! Exact whole numbers with a scale, in 128 bits: smaller units, and their order.

ghost use Rattle.std.specs.Prelude.{◌≡◌, ◌-◌, SomeIff, FitsSigned};
ghost use Rattle.std.specs.Int.{w128};
ghost use Rattle.std.specs.Ordering.{int_cmp};
ghost use Rattle.sql_value.specs.Number as spec;

use std::cmp::Ordering;

/// The number in units that are smaller by so many places, where 128 bits hold it.
#[tactic(auto, unfolding(crate::specs::Number::raised))]
pub fn raised(v: i128, places: u8) -> Option<i128>
    ensures { SomeIff result (FitsSigned w128 (spec.raised v places)) (spec.raised v places) }
{
    if v == 0 {
        return Some(0);
    }
    let unit = 10i128.checked_pow(places.into())?;
    v.checked_mul(unit)
}

/// A number brought to smaller units, against a number in those units.
fn compare_raised(v: i128, places: u8, w: i128) -> Ordering
    ensures { result ≡ int_cmp (spec.raised v places) w }
{
    match raised(v, places) {
        Some(x) => x.cmp(&w),
        None if v < 0 => Ordering::Less,
        None => Ordering::Greater,
    }
}

/// `v` in units of 10^-s against `w` in units of 10^-z, exactly. Numbers of one scale are
/// compared as they are.
pub fn compare_numbers(v: i128, s: u8, w: i128, z: u8) -> Ordering
    ensures { result ≡ int_cmp (spec.raised v (255 - s)) (spec.raised w (255 - z)) }
{
    if s == z {
        v.cmp(&w)
    } else if s < z {
        compare_raised(v, z - s, w)
    } else {
        compare_raised(w, s - z, v).reverse()
    }
}
