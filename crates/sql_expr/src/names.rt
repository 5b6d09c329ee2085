//! The columns that an expression names.

ghost use Rattle.std.specs.Prelude.{◌≡◌};
ghost use Rattle.sql_value.specs.Tree.{tree};
ghost use Rattle.spec_model.specs.Classes as spec;

use sql_parts::Columns;
use sql_value::Expr;

/// Whether all columns that an expression names are there.
pub fn names_columns(e: &Expr, columns: &Columns) -> bool
    ensures { result ≡ spec.names_columns columns.now (tree e.now) }
{
    match e {
        Expr::Lit(_) => true,
        Expr::Col(name) => columns.place_of(name).is_some(),
        Expr::Neg(a) | Expr::Not(a) => names_columns(a.get(), columns),
        Expr::IsNull { of, negated: _ } => names_columns(of.get(), columns),
        Expr::Bin(_, a, b) => names_columns(a.get(), columns) && names_columns(b.get(), columns),
    }
}
