//! The class of an expression.

ghost use Rattle.std.specs.Prelude.{◌≡◌};
ghost use Rattle.sql_value.specs.Tree.{tree};
ghost use Rattle.spec_model.specs.Classes as spec;
ghost use Rattle.spec_model.specs.Days as days;

use crate::classes::{binary_class, negation_class, null_test_class, opposite_class};
use crate::days::written_day;
use crate::names::names_columns;
use sql_parts::Columns;
use sql_value::{Class, Expr, Refusal, SqlType, Value};

/// The class of a column of this type, or TypeMismatch where the type's parameters are out of range.
#[tactic(auto, unfolding(sql_value::specs::Stored::is_in_range))]
pub fn class_of_type(ty: &SqlType) -> Result<Class, Refusal>
    ensures { result ≡ spec.class_of_type ty.now }
{
    match ty {
        SqlType::Bit | SqlType::Int | SqlType::BigInt => Ok(Class::Whole),
        SqlType::Decimal { p: _, s } if ty.is_in_range() => Ok(Class::Dec(*s as u8)),
        SqlType::NVarChar { n: _ } if ty.is_in_range() => Ok(Class::Text),
        SqlType::VarBinary { n: _ } if ty.is_in_range() => Ok(Class::Bytes),
        SqlType::Date => Ok(Class::Date),
        _ => Err(Refusal::TypeMismatch),
    }
}

/// The class of a literal.
pub fn class_of_literal(value: &Value) -> Class
    ensures { result ≡ spec.class_of_literal value.now }
{
    match value {
        Value::Null => Class::Null,
        Value::Num { v: _, s: 0 } => Class::Whole,
        Value::Num { v: _, s } => Class::Dec(*s),
        Value::Text(_) => Class::Text,
        Value::Bytes(_) => Class::Bytes,
        Value::Date(_) => Class::Date,
    }
}

/// The class of an operand beside another: a text literal that is a date has class Date beside a Date.
fn beside(e: &Expr, a: Class, b: Class) -> Class
    ensures { result ≡ spec.class_beside_day (days.written_day (tree e.now)) a b }
{
    if b == Class::Date && written_day(e).is_some() {
        Class::Date
    } else {
        a
    }
}

/// The class of an expression, or TypeMismatch where its classes don't agree or a column isn't there.
pub fn class(e: &Expr, columns: &Columns) -> Result<Class, Refusal>
    ensures { result ≡ spec.class columns.now (tree e.now) }
{
    match e {
        Expr::Lit(value) => Ok(class_of_literal(value)),
        Expr::Col(name) => match columns.type_of(name) {
            Some(ty) => class_of_type(&ty),
            None => Err(Refusal::TypeMismatch),
        },
        Expr::Neg(a) => negation_class(class(a.get(), columns)?),
        Expr::Not(a) => opposite_class(class(a.get(), columns)?),
        Expr::IsNull { of, negated: _ } => null_test_class(class(of.get(), columns)?),
        Expr::Bin(op, a, b) => {
            let (a, b) = (a.get(), b.get());
            let x = class(a, columns)?;
            let y = class(b, columns)?;
            binary_class(*op, beside(a, x, y), beside(b, y, x))
        }
    }
}

/// The class of an expression over the columns: NoSuchColumn exactly where it names a column that isn't there, else
/// TypeMismatch exactly where its classes don't agree. One pass over the expression serves where it has a class.
#[tactic(auto, unfolding(spec_model::specs::Classes::class_of), using(spec_model::proofs::Missing::there))]
pub fn check(e: &Expr, columns: &Columns) -> Result<Class, Refusal>
    ensures { result ≡ spec.class_of columns.now e.now }
{
    match class(e, columns) {
        Ok(class) => Ok(class),
        Err(refusal) if names_columns(e, columns) => Err(refusal),
        Err(_) => Err(Refusal::NoSuchColumn),
    }
}
