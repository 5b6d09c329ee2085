//! COUNT(*) and SUM.

ghost use Rattle.std.specs.Prelude.{◌≡◌, [], List, IfSome, Ok, map};
ghost use Rattle.sql_value.specs.declared.value.Value.TheVariants.{Num};
ghost use Rattle.sql_types.specs.declared.statement.Agg.TheVariants.{Sum};
ghost use Rattle.spec_model.specs.Rows.{Row as SpecRow};
ghost use Rattle.sql_select.specs.Totals.{AreTotals};
ghost use Rattle.spec_model.specs.Refusals.{MatchesUnlessOom};
ghost use Rattle.spec_model.specs.Lists.{checked_map};
ghost use Rattle.spec_model.specs.Query as spec;
ghost use Rattle.sql_parts.specs.InTurn.{map_after};

use crate::ordering::is_same_place;
use crate::showing::value_in;
use base_types::{Items, Name};
use sql_expr::{Number, sized, sum};
use sql_parts::Columns;
use sql_types::{Agg, Row};
use sql_value::{Refusal, Value};
use std::alloc::Global;

fn number(of: Number) -> Value
    ensures { result ≡ Num of.s of.v }
{
    Value::Num { v: of.v, s: of.s }
}

/// A sum with one value more; NULL is left out.
fn added_up(total: Value, value: &Value) -> Result<Value, Refusal>
    ensures { result ≡ spec.added_up total value.now }
{
    match (total, value) {
        (total, Value::Null) => Ok(total),
        (Value::Null, Value::Num { v, s }) => Ok(number(sized(Some(*v), *s)?)),
        (Value::Num { v, s }, Value::Num { v: w, s: z }) => Ok(number(sum(v, s, *w, *z)?)),
        _ => Err(Refusal::TypeMismatch),
    }
}

/// The sum of the values at a place, row by row; NULL over no values.
#[tactic(auto, unfolding(spec_model::specs::Query::total))]
fn total(place: Option<usize>, rows: &[Row]) -> Result<Value, Refusal>
    ensures { result ≡ spec.total (map (spec.value_in place) rows.now) }
{
    let null = Value::Null;
    let mut total = Value::Null;
    for row in rows {
        total = added_up(total, value_in(place, row.as_slice(), &null))?;
    }
    Ok(total)
}

/// The total at a place, if it is one of these.
#[tactic(auto, using(crate::proofs::KnownTotals::known))]
fn known_total(totals: &[(Option<usize>, Value)], place: Option<usize>) -> Option<&Value>
    ensures { (rows : List SpecRow) → AreTotals rows totals.now
        → IfSome result (λ known. spec.total (map (spec.value_in place) rows) ≡ Ok known.now) }
{
    for total in totals {
        if is_same_place(total.0, place) {
            return Some(&total.1);
        }
    }
    None
}

/// The sum of a column. It is worked out where it is none of the totals, and is one of them then.
#[tactic(auto, unfolding(spec_model::specs::Query::agg_value), using(crate::proofs::KnownTotals::one_more))]
fn sum_of(
    columns: &Columns,
    name: &Name,
    rows: &[Row],
    totals: &mut Vec<(Option<usize>, Value)>,
) -> Result<Value, Refusal>
    requires { AreTotals rows.now totals.old.items }
    ensures value { MatchesUnlessOom (spec.agg_value columns.now rows.now (Sum name.now)) result }
    ensures totals { AreTotals rows.now totals.new.items }
{
    let place = columns.place_of(name);
    if let Some(known) = known_total(totals.as_slice(), place) {
        return Ok(known.copy()?);
    }
    let sum = total(place, rows)?;
    totals.push((place, sum.copy()?))?;
    Ok(sum)
}

#[tactic(auto, unfolding(spec_model::specs::Query::agg_value))]
fn aggregate(
    columns: &Columns,
    agg: &Agg,
    rows: &[Row],
    totals: &mut Vec<(Option<usize>, Value)>,
) -> Result<Value, Refusal>
    requires { AreTotals rows.now totals.old.items }
    ensures value { MatchesUnlessOom (spec.agg_value columns.now rows.now agg.now) result }
    ensures totals { AreTotals rows.now totals.new.items }
{
    match agg {
        Agg::Count => Ok(Value::Num {
            v: rows.len() as i128,
            s: 0,
        }),
        Agg::Sum(name) => sum_of(columns, name, rows, totals),
    }
}

/// The aggregates one after another. Each column is summed up once, so the rows are gone through no more often than
/// there are columns.
fn each_aggregate(
    alloc: Global,
    columns: &Columns,
    aggs: &[Agg],
    rows: &[Row],
) -> Result<Row, Refusal>
    ensures { MatchesUnlessOom (map_after (spec.agg_value columns.now rows.now) [] aggs.now) result }
{
    let mut totals = Vec::new(alloc);
    let mut values = Items::new(alloc);
    for agg in aggs {
        values.push(aggregate(columns, agg, rows, &mut totals)?)?;
    }
    Ok(values)
}

/// The row of the aggregates, each over all rows.
pub(crate) fn aggregates(
    alloc: Global,
    columns: &Columns,
    aggs: &[Agg],
    rows: &[Row],
) -> Result<Row, Refusal>
    ensures { MatchesUnlessOom (checked_map (spec.agg_value columns.now rows.now) aggs.now) result }
{
    each_aggregate(alloc, columns, aggs, rows)
}
