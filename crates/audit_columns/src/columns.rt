//! Whether a row has the columns of its table.

ghost use Rattle.std.specs.Prelude.{◌≡◌};
ghost use Rattle.spec_verify.specs.Versions as spec;

use base_types::first_of;
use sql_scalar::fits;
use sql_types::TypedValue;
use sql_value::{ColumnDef, SqlType, type_parts};

/// Whether two types have one code and one set of parameters.
pub fn same_type(a: SqlType, b: SqlType) -> bool
    ensures { result ≡ spec.same_type a b }
{
    let (a_code, a_first, a_second) = type_parts(a);
    let (b_code, b_first, b_second) = type_parts(b);
    a_code == b_code && (a_first == b_first && a_second == b_second)
}

fn is_of(column: &ColumnDef, value: &Option<TypedValue>) -> bool
    ensures { result ≡ spec.is_of column.now value.now }
{
    match value {
        None => true,
        Some(typed) => same_type(typed.ty, column.ty) && fits(&typed.value, &column.ty),
    }
}

/// Whether the row has a value of each column's type, and nothing more.
pub fn has_columns(columns: &[ColumnDef], row: &[Option<TypedValue>]) -> bool
    ensures { result ≡ spec.has_columns columns.now row.now }
{
    let mut columns = columns;
    let mut row = row;
    'each: loop {
        match (first_of(columns), first_of(row)) {
            (None, None) => return true,
            (Some((column, more)), Some((value, others))) => {
                if !is_of(column, value) {
                    return false;
                }
                columns = more;
                row = others;
            }
            (None, Some(_)) | (Some(_), None) => return false,
        }
    }
}

/// Whether the row has NULL only where the column may be NULL.
pub(crate) fn respects_not_null(columns: &[ColumnDef], row: &[Option<TypedValue>]) -> bool
    ensures { result ≡ spec.respects_not_null columns.now row.now }
{
    let mut columns = columns;
    let mut row = row;
    'each: loop {
        match (first_of(columns), first_of(row)) {
            (Some((column, more)), Some((value, others))) => {
                if !column.nullable && value.is_none() {
                    return false;
                }
                columns = more;
                row = others;
            }
            (None, None) | (None, Some(_)) | (Some(_), None) => return true,
        }
    }
}
