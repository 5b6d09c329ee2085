//! The codes of types.

ghost use Rattle.std.specs.Prelude.{◌≡◌};
ghost use Rattle.sql_value.specs.TypeCodes.{type_code, first_parameter, second_parameter};

use crate::SqlType;

/// The code of a type, and its two parameters, as formats and system tables write them.
pub fn type_parts(ty: SqlType) -> (u8, u32, u32)
    ensures { result ≡ (type_code ty, first_parameter ty, second_parameter ty) }
{
    match ty {
        SqlType::Bit => (1, 0, 0),
        SqlType::Int => (2, 0, 0),
        SqlType::BigInt => (3, 0, 0),
        SqlType::Decimal { p, s } => (4, p, s),
        SqlType::NVarChar { n } => (5, n, 0),
        SqlType::VarBinary { n } => (6, n, 0),
        SqlType::Date => (7, 0, 0),
    }
}
