//! WHERE: whether a condition takes a row.

ghost use Rattle.std.specs.Prelude.{◌≡◌};
ghost use Rattle.spec_model.specs.Refusals.{MatchesUnlessOom};
ghost use Rattle.spec_model.specs.Where as spec;

use crate::evaluation::eval;
use crate::seen_row::RowRef;
use sql_parts::Columns;
use sql_types::Outcome;
use sql_value::{Expr, Refusal};

/// Whether a condition that came out so takes the row: it does where it is true, not where it is false or
/// unknown.
fn is_true(outcome: Outcome) -> Result<bool, Refusal>
    ensures { result ≡ spec.is_true outcome }
{
    match outcome {
        Outcome::Truth(truth) => Ok(truth == Some(true)),
        Outcome::Value(_) => Err(Refusal::TypeMismatch),
    }
}

/// Whether a condition over the columns takes a row of them; without a condition each row is taken. TypeMismatch and
/// NumberOutOfRange come where the condition's evaluation gives them, and NoMemory for want of memory.
#[tactic(auto, unfolding(spec_model::specs::Where::holds))]
pub fn holds(columns: &Columns, cond: &Option<Expr>, row: &RowRef) -> Result<bool, Refusal>
    ensures { MatchesUnlessOom (spec.holds columns.now cond.now row.now) result }
{
    match cond {
        None => Ok(true),
        Some(e) => is_true(eval(e, columns, row)?),
    }
}
