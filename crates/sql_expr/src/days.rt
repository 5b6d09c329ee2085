//! Text literals that are dates.

ghost use Rattle.std.specs.Prelude.{◌≡◌};
ghost use Rattle.sql_value.specs.Tree.{tree};
ghost use Rattle.spec_model.specs.Days as spec;

use sql_scalar::day_of;
use sql_value::{Expr, Value};

/// The day that an expression writes, where it is a text literal and a date in the form `YYYY-MM-DD`.
pub fn written_day(e: &Expr) -> Option<u32>
    ensures { result ≡ spec.written_day (tree e.now) }
{
    match e {
        Expr::Lit(Value::Text(text)) => day_of(text.bytes()),
        _ => None,
    }
}
