//! What operators make of the outcomes of their operands.

ghost use Rattle.std.specs.Prelude.{◌≡◌};
ghost use Rattle.spec_model.specs.Evaluation as spec;
ghost use Rattle.spec_model.specs.Operators.{IsArithmetic, IsComparison, IsConnective};
ghost use Rattle.sql_expr.specs.Arithmetic.{IsNumber};
ghost use Rattle.sql_expr.specs.Operators.{order_of as spec_order};
ghost use Rattle.sql_expr.specs.OutcomeRef.{outcome_of, Shows};

use crate::arithmetic::{Number, difference, negative, product, sum};
use crate::seen::{OutcomeRef, number_ref};
use crate::truth::{both, either, opposite};
use sql_value::{Op, Refusal, compare_numbers};
use std::cmp::Ordering;

/// Whether a comparison holds of operands in this order.
pub(crate) fn takes(op: Op, order: Ordering) -> bool
    ensures { result ≡ spec.takes op order }
{
    match op {
        Op::Eq => order == Ordering::Equal,
        Op::Ne => order != Ordering::Equal,
        Op::Lt => order == Ordering::Less,
        Op::Le => order != Ordering::Greater,
        Op::Gt => order == Ordering::Greater,
        Op::Ge => order != Ordering::Less,
        Op::Add | Op::Sub | Op::Mul | Op::And | Op::Or => false,
    }
}

/// The negation of a number; that of NULL is NULL.
pub(crate) fn negated<'a>(of: OutcomeRef<'a>) -> Result<OutcomeRef<'a>, Refusal>
    ensures { Shows (spec.negated (outcome_of of.entry)) result }
{
    match of {
        OutcomeRef::Number { v, s } => Ok(number_ref(negative(v, s)?)),
        OutcomeRef::Null => Ok(OutcomeRef::Null),
        _ => Err(Refusal::TypeMismatch),
    }
}

/// The opposite of a truth.
pub(crate) fn inverted<'a>(of: OutcomeRef<'a>) -> Result<OutcomeRef<'a>, Refusal>
    ensures { Shows (spec.inverted (outcome_of of.entry)) result }
{
    match of {
        OutcomeRef::Truth(t) => Ok(OutcomeRef::Truth(opposite(t))),
        _ => Err(Refusal::TypeMismatch),
    }
}

/// The test for NULL, or where it is negated for another value.
pub(crate) fn null_test<'a>(negated: bool, of: OutcomeRef<'a>) -> Result<OutcomeRef<'a>, Refusal>
    ensures { Shows (spec.null_test negated (outcome_of of.entry)) result }
{
    match of {
        OutcomeRef::Truth(_) => Err(Refusal::TypeMismatch),
        OutcomeRef::Null => Ok(OutcomeRef::Truth(Some(!negated))),
        _ => Ok(OutcomeRef::Truth(Some(negated))),
    }
}

/// A sum, a difference or a product of two numbers.
fn number_op(op: Op, v: i128, s: u8, w: i128, z: u8) -> Result<Number, Refusal>
    ensures { IsNumber (spec.number_op op v s w z) result }
{
    match op {
        Op::Add => sum(v, s, w, z),
        Op::Sub => difference(v, s, w, z),
        Op::Mul => product(v, s, w, z),
        _ => Err(Refusal::TypeMismatch),
    }
}

/// Arithmetic on numbers; with NULL it gives NULL.
fn arithmetic<'a>(op: Op, x: OutcomeRef<'a>, y: OutcomeRef<'a>) -> Result<OutcomeRef<'a>, Refusal>
    requires { IsArithmetic op }
    ensures { Shows (spec.applied op (outcome_of x.entry) (outcome_of y.entry)) result }
{
    match (x, y) {
        (OutcomeRef::Number { v, s }, OutcomeRef::Number { v: w, s: z }) => {
            Ok(number_ref(number_op(op, v, s, w, z)?))
        }
        (OutcomeRef::Null, OutcomeRef::Null | OutcomeRef::Number { .. }) => Ok(OutcomeRef::Null),
        (OutcomeRef::Number { .. }, OutcomeRef::Null) => Ok(OutcomeRef::Null),
        _ => Err(Refusal::TypeMismatch),
    }
}

/// How two values of one kind stand to each other.
#[tactic(auto, unfolding(sql_value::specs::Order::value_cmp))]
fn order_of<'a>(x: OutcomeRef<'a>, y: OutcomeRef<'a>) -> Option<Ordering>
    ensures { result ≡ spec_order (outcome_of x.entry) (outcome_of y.entry) }
{
    match (x, y) {
        (OutcomeRef::Number { v, s }, OutcomeRef::Number { v: w, s: z }) => Some(compare_numbers(
            v, s, w, z,
        )),
        (OutcomeRef::Text(a), OutcomeRef::Text(b)) => Some(a.bytes().cmp(b.bytes())),
        (OutcomeRef::Bytes(a), OutcomeRef::Bytes(b)) => Some(a.bytes().cmp(b.bytes())),
        (OutcomeRef::Day(d), OutcomeRef::Day(e)) => Some(d.cmp(&e)),
        _ => None,
    }
}

/// A comparison; with NULL it is unknown.
fn compared<'a>(op: Op, x: OutcomeRef<'a>, y: OutcomeRef<'a>) -> Result<OutcomeRef<'a>, Refusal>
    requires { IsComparison op }
    ensures { Shows (spec.applied op (outcome_of x.entry) (outcome_of y.entry)) result }
{
    match (x, y) {
        (OutcomeRef::Null, _) | (_, OutcomeRef::Null) => Ok(OutcomeRef::Truth(None)),
        _ => match order_of(x, y) {
            Some(order) => Ok(OutcomeRef::Truth(Some(takes(op, order)))),
            None => Err(Refusal::TypeMismatch),
        },
    }
}

/// AND or OR.
fn connected<'a>(op: Op, x: OutcomeRef<'a>, y: OutcomeRef<'a>) -> Result<OutcomeRef<'a>, Refusal>
    requires { IsConnective op }
    ensures { Shows (spec.applied op (outcome_of x.entry) (outcome_of y.entry)) result }
{
    match (op, x, y) {
        (Op::And, OutcomeRef::Truth(s), OutcomeRef::Truth(t)) => Ok(OutcomeRef::Truth(both(s, t))),
        (Op::Or, OutcomeRef::Truth(s), OutcomeRef::Truth(t)) => Ok(OutcomeRef::Truth(either(s, t))),
        _ => Err(Refusal::TypeMismatch),
    }
}

/// What an operator makes of its operands.
pub(crate) fn applied<'a>(
    op: Op,
    x: OutcomeRef<'a>,
    y: OutcomeRef<'a>,
) -> Result<OutcomeRef<'a>, Refusal>
    ensures { Shows (spec.applied op (outcome_of x.entry) (outcome_of y.entry)) result }
{
    match op {
        Op::Add | Op::Sub | Op::Mul => arithmetic(op, x, y),
        Op::And | Op::Or => connected(op, x, y),
        Op::Eq | Op::Ne | Op::Lt | Op::Le | Op::Gt | Op::Ge => compared(op, x, y),
    }
}
