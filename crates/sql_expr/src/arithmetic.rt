//! Arithmetic on exact numbers in 128 bits.

ghost use Rattle.std.specs.Prelude.{◌≡◌, ◌-◌, Err, SomeIff, MatchOption, FitsSigned, IsTrue};
ghost use Rattle.std.specs.Int.{w128};
ghost use Rattle.sql_value.specs.Number.{has_digits, raised as spec_raised};
ghost use Rattle.sql_value.specs.declared.refusal.Refusal.TheVariants.{NumberOutOfRange};
ghost use Rattle.spec_model.specs.Numbers as spec;
ghost use Rattle.sql_expr.specs.Arithmetic.{AreInSize, IsNumber};

use sql_value::{Refusal, raised};

/// No number reaches this size.
const LIMIT: u128 = 100_000_000_000_000_000_000_000_000_000_000_000_000;

/// The number `v` in units of 10^-s.
#[derive(Clone, Copy, Debug)]
pub struct Number {
    pub v: i128,
    pub s: u8,
}

fn is_in_size(v: i128) -> bool
    ensures { result ≡ has_digits v 38 }
{
    v.unsigned_abs() < LIMIT
}

/// A result: NumberOutOfRange exactly where its size is 10^38 or more. What leaves 128 bits, and is none, leaves that size
/// too.
pub fn sized(v: Option<i128>, s: u8) -> Result<Number, Refusal>
    ensures { MatchOption v (result ≡ Err NumberOutOfRange) (λ v. IsNumber (spec.in_38_digits v s) result) }
{
    match v {
        Some(v) if is_in_size(v) => Ok(Number { v, s }),
        _ => Err(Refusal::NumberOutOfRange),
    }
}

/// The number in units that are smaller by so many places, where 128 bits hold it. At 0 places nothing is
/// multiplied.
#[tactic(auto, unfolding(sql_value::specs::Number::raised))]
fn in_units(v: i128, places: u8) -> Option<i128>
    ensures { SomeIff result (FitsSigned w128 (spec_raised v places)) (spec_raised v places) }
{
    if places == 0 {
        Some(v)
    } else {
        raised(v, places)
    }
}

/// An operand in units that are smaller by so many places, where its size allows.
fn brought(v: i128, places: u8) -> Option<i128>
    ensures { SomeIff result (IsTrue (has_digits (spec_raised v places) 38)) (spec_raised v places) }
{
    let v = in_units(v, places)?;
    if is_in_size(v) { Some(v) } else { None }
}

/// Two operands brought to the greater of their scales, where their sizes allow.
fn aligned(v: i128, s: u8, w: i128, z: u8) -> Option<(i128, i128)>
    ensures { SomeIff result (AreInSize v s w z) (spec_raised v (z - s), spec_raised w (s - z)) }
{
    let v = brought(v, z.saturating_sub(s))?;
    let w = brought(w, s.saturating_sub(z))?;
    Some((v, w))
}

/// The sum of two numbers: NumberOutOfRange exactly where it, or an operand brought to the greater scale, has size 10^38
/// or more.
#[tactic(auto, unfolding(spec_model::specs::Numbers::sum_of))]
pub fn sum(v: i128, s: u8, w: i128, z: u8) -> Result<Number, Refusal>
    ensures { IsNumber (spec.sum_of v s w z) result }
{
    match aligned(v, s, w, z) {
        Some((a, b)) => sized(a.checked_add(b), s.max(z)),
        None => Err(Refusal::NumberOutOfRange),
    }
}

/// The first number without the second.
#[tactic(auto, unfolding(spec_model::specs::Numbers::difference_of))]
pub(crate) fn difference(v: i128, s: u8, w: i128, z: u8) -> Result<Number, Refusal>
    ensures { IsNumber (spec.difference_of v s w z) result }
{
    match aligned(v, s, w, z) {
        Some((a, b)) => sized(a.checked_sub(b), s.max(z)),
        None => Err(Refusal::NumberOutOfRange),
    }
}

/// The product of two numbers.
#[tactic(auto, unfolding(spec_model::specs::Numbers::product_of))]
pub(crate) fn product(v: i128, s: u8, w: i128, z: u8) -> Result<Number, Refusal>
    ensures { IsNumber (spec.product_of v s w z) result }
{
    if s <= 38 && z <= 38 - s {
        sized(v.checked_mul(w), s + z)
    } else {
        Err(Refusal::TypeMismatch)
    }
}

/// The number with the other sign.
#[tactic(auto, unfolding(spec_model::specs::Numbers::negative_of))]
pub(crate) fn negative(v: i128, s: u8) -> Result<Number, Refusal>
    ensures { IsNumber (spec.negative_of v s) result }
{
    sized(v.checked_neg(), s)
}
