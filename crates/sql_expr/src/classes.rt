//! Which classes an operator takes, and what it gives.

ghost use Rattle.std.specs.Prelude.{◌≡◌};
ghost use Rattle.spec_model.specs.Classes as spec;

use sql_value::{Class, Op, Refusal};

/// A NULL beside a number has the number's class.
fn beside_number(a: Class, b: Class) -> Class
    ensures { result ≡ spec.beside_number a b }
{
    match (a, b) {
        (Class::Null, Class::Whole | Class::Dec(_)) => b,
        _ => a,
    }
}

/// A sum or a difference has the greater scale.
fn sum_class(a: Class, b: Class) -> Result<Class, Refusal>
    ensures { result ≡ spec.sum_class a b }
{
    match (beside_number(a, b), beside_number(b, a)) {
        (Class::Whole, Class::Whole) => Ok(Class::Whole),
        (Class::Whole, Class::Dec(s)) | (Class::Dec(s), Class::Whole) => Ok(Class::Dec(s)),
        (Class::Dec(s), Class::Dec(z)) => Ok(Class::Dec(s.max(z))),
        (Class::Null, Class::Null) => Ok(Class::Null),
        _ => Err(Refusal::TypeMismatch),
    }
}

/// A product has the sum of the scales.
fn product_class(a: Class, b: Class) -> Result<Class, Refusal>
    ensures { result ≡ spec.product_class a b }
{
    match (beside_number(a, b), beside_number(b, a)) {
        (Class::Whole, Class::Whole) => Ok(Class::Whole),
        (Class::Whole, Class::Dec(s)) | (Class::Dec(s), Class::Whole) if s <= 38 => Ok(Class::Dec(
            s,
        )),
        (Class::Dec(s), Class::Dec(z)) if s <= 38 && z <= 38 - s => Ok(Class::Dec(s + z)),
        (Class::Null, Class::Null) => Ok(Class::Null),
        _ => Err(Refusal::TypeMismatch),
    }
}

/// A comparison takes numbers, texts, bytes or days, and NULL with each class.
fn comparison_class(a: Class, b: Class) -> Result<Class, Refusal>
    ensures { result ≡ spec.comparison_class a b }
{
    match (a, b) {
        (Class::Null, _) | (_, Class::Null) => Ok(Class::Truth),
        (Class::Whole | Class::Dec(_), Class::Whole | Class::Dec(_)) => Ok(Class::Truth),
        (Class::Text, Class::Text) | (Class::Bytes, Class::Bytes) | (Class::Date, Class::Date) => {
            Ok(Class::Truth)
        }
        _ => Err(Refusal::TypeMismatch),
    }
}

/// AND and OR take truths.
fn connective_class(a: Class, b: Class) -> Result<Class, Refusal>
    ensures { result ≡ spec.connective_class a b }
{
    match (a, b) {
        (Class::Truth, Class::Truth) => Ok(Class::Truth),
        _ => Err(Refusal::TypeMismatch),
    }
}

/// What an operator of two operands gives.
pub(crate) fn binary_class(op: Op, a: Class, b: Class) -> Result<Class, Refusal>
    ensures { result ≡ spec.binary_class op a b }
{
    match op {
        Op::Add | Op::Sub => sum_class(a, b),
        Op::Mul => product_class(a, b),
        Op::And | Op::Or => connective_class(a, b),
        Op::Eq | Op::Ne | Op::Lt | Op::Le | Op::Gt | Op::Ge => comparison_class(a, b),
    }
}

/// The negation takes numbers and NULL.
pub(crate) fn negation_class(a: Class) -> Result<Class, Refusal>
    ensures { result ≡ spec.negation_class a }
{
    match a {
        Class::Whole | Class::Dec(_) | Class::Null => Ok(a),
        _ => Err(Refusal::TypeMismatch),
    }
}

/// The test for NULL takes all but truths.
pub(crate) fn null_test_class(a: Class) -> Result<Class, Refusal>
    ensures { result ≡ spec.null_test_class a }
{
    match a {
        Class::Truth => Err(Refusal::TypeMismatch),
        _ => Ok(Class::Truth),
    }
}

/// NOT takes truths.
pub(crate) fn opposite_class(a: Class) -> Result<Class, Refusal>
    ensures { result ≡ spec.opposite_class a }
{
    match a {
        Class::Truth => Ok(Class::Truth),
        _ => Err(Refusal::TypeMismatch),
    }
}
