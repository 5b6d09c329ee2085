//! The value or truth of an expression in a row.

ghost use Rattle.std.specs.Prelude.{◌≡◌};
ghost use Rattle.sql_value.specs.Tree.{tree};
ghost use Rattle.spec_model.specs.Refusals.{MatchesUnlessOom, and_then, or_refused};
ghost use Rattle.spec_model.specs.Columns as columns_of;
ghost use Rattle.spec_model.specs.Days as days;
ghost use Rattle.spec_model.specs.Evaluation as spec;
ghost use Rattle.sql_expr.specs.OutcomeRef.{outcome_of, Shows};
ghost use Rattle.sql_value.specs.declared.refusal.Refusal.TheVariants.{TypeMismatch};

use crate::days::written_day;
use crate::operators::{applied, inverted, negated, null_test};
use crate::seen::{OutcomeRef, owned, value_ref};
use crate::seen_row::RowRef;
use sql_parts::Columns;
use sql_types::Outcome;
use sql_value::{Expr, Name, Refusal};

/// The value of a row in the column of this name.
fn value_of<'a>(columns: &Columns, row: &RowRef<'a>, name: &Name) -> Result<OutcomeRef<'a>, Refusal>
    ensures { Shows
        (and_then (or_refused TypeMismatch (columns_of.value_of columns.now row.now name.now)) spec.a_value) result }
{
    match columns.place_of(name) {
        Some(place) => match row.seen_at(place) {
            Some(seen) => Ok(seen),
            None => Err(Refusal::TypeMismatch),
        },
        None => Err(Refusal::TypeMismatch),
    }
}

/// The outcome of an operand beside another: a text literal that is a date counts as its day beside a day.
fn beside<'a>(e: &Expr, x: OutcomeRef<'a>, y: OutcomeRef<'a>) -> OutcomeRef<'a>
    ensures { outcome_of result ≡ spec.beside_day (days.written_day (tree e.now))
        (outcome_of x.entry) (outcome_of y.entry) }
{
    match y {
        OutcomeRef::Day(_) => match written_day(e) {
            Some(day) => OutcomeRef::Day(day),
            None => x,
        },
        _ => x,
    }
}

/// The value or truth of an expression, with texts and bytes where they lie.
fn seen<'a>(e: &'a Expr, columns: &Columns, row: &RowRef<'a>) -> Result<OutcomeRef<'a>, Refusal>
    ensures { Shows (spec.meaning columns.now row.now (tree e.now)) result }
{
    match e {
        Expr::Lit(value) => Ok(value_ref(value)),
        Expr::Col(name) => value_of(columns, row, name),
        Expr::Neg(a) => negated(seen(a.get(), columns, row)?),
        Expr::Not(a) => inverted(seen(a.get(), columns, row)?),
        Expr::IsNull { of, negated } => null_test(*negated, seen(of.get(), columns, row)?),
        Expr::Bin(op, a, b) => {
            let (a, b) = (a.get(), b.get());
            let x = seen(a, columns, row)?;
            let y = seen(b, columns, row)?;
            applied(*op, beside(a, x, y), beside(b, y, x))
        }
    }
}

/// The value or truth of an expression over the columns, in a row of them. Both sides of an operator are
/// always evaluated. NumberOutOfRange comes exactly where a result of arithmetic, or an operand brought to the greater
/// scale, has size 10^38 or more; TypeMismatch where a use is one that classes forbid, so never after `check` in a row
/// that fits; NoMemory for want of memory alone. Only the text or the bytes of the answer take memory.
#[tactic(auto, unfolding(spec_model::specs::Evaluation::meaning_of))]
pub fn eval(e: &Expr, columns: &Columns, row: &RowRef) -> Result<Outcome, Refusal>
    ensures { MatchesUnlessOom (spec.meaning_of columns.now row.now e.now) result }
{
    Ok(owned(seen(e, columns, row)?)?)
}
