//! Which values and expressions a column takes, by their classes.

ghost use Rattle.std.specs.Prelude.{◌≡◌};
ghost use Rattle.sql_value.specs.Tree.{tree};
ghost use Rattle.spec_model.specs.Checks as spec;

use sql_expr::{class, class_of_literal, names_columns, written_day};
use sql_parts::Columns;
use sql_scalar::day_of;
use sql_value::{Class, ColumnDef, Expr, SqlType, Value};

/// Whether a column of the type takes values of the class; `is_date` says that they are a text literal that
/// is a date.
fn accepts_class(ty: &SqlType, class: Class, is_date: bool) -> bool
    ensures { result ≡ spec.accepts_class ty.now class is_date }
{
    match (ty, class) {
        (_, Class::Null) => true,
        (SqlType::Bit | SqlType::Int | SqlType::BigInt, Class::Whole) => true,
        (SqlType::Decimal { .. }, Class::Whole | Class::Dec(_)) => true,
        (SqlType::NVarChar { .. }, Class::Text) => true,
        (SqlType::VarBinary { .. }, Class::Bytes) => true,
        (SqlType::Date, Class::Text) => is_date,
        (SqlType::Date, Class::Date) => true,
        _ => false,
    }
}

fn is_date(value: &Value) -> bool
    ensures { result ≡ spec.is_date value.now }
{
    match value {
        Value::Text(text) => day_of(text.bytes()).is_some(),
        _ => false,
    }
}

/// Whether the column takes a literal.
pub(crate) fn accepts_value(column: &ColumnDef, value: &Value) -> bool
    ensures { result ≡ spec.accepts_value column.now value.now }
{
    accepts_class(&column.ty, class_of_literal(value), is_date(value))
}

/// Whether the column takes what an expression over the columns gives.
pub(crate) fn accepts_expr(columns: &Columns, column: &ColumnDef, e: &Expr) -> bool
    ensures { result ≡ spec.accepts_expr columns.now column.now (tree e.now) }
{
    match class(e, columns) {
        Ok(class) => accepts_class(&column.ty, class, written_day(e).is_some()),
        Err(_) => false,
    }
}

/// Whether the columns that a condition names are there.
pub(crate) fn names_condition(columns: &Columns, cond: &Option<Expr>) -> bool
    ensures { result ≡ spec.cond_names columns.now cond.now }
{
    match cond {
        Some(e) => names_columns(e, columns),
        None => true,
    }
}

/// Whether a condition is a truth value.
pub(crate) fn is_condition(columns: &Columns, cond: &Option<Expr>) -> bool
    ensures { result ≡ spec.cond_is_truth columns.now cond.now }
{
    match cond {
        Some(e) => matches!(class(e, columns), Ok(Class::Truth)),
        None => true,
    }
}
