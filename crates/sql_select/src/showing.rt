//! What is shown of the rows.

ghost use Rattle.std.specs.Prelude.{◌≡◌, ◌++◌, IfOk, OnOk, map, take};
ghost use Rattle.sql_value.specs.declared.value.Value.TheVariants.{Null};
ghost use Rattle.spec_model.specs.Columns as columns_spec;
ghost use Rattle.spec_model.specs.Parts.{what_shown};
ghost use Rattle.spec_model.specs.Query as spec;
ghost use Rattle.sql_parts.specs.Dropped.{unless, unflagged};
ghost use Rattle.sql_select.specs.Answers.{ItemsMatchUnlessOom};
ghost use Rattle.sql_select.specs.Places.{values_at};

use crate::totals::aggregates;
use base_types::{Items, Memory, Name};
use sql_parts::{Columns, dropped_flags};
use sql_types::{Row, SelectList};
use sql_value::{Refusal, Value};
use std::alloc::Global;

/// The value of a row at a place, or else NULL.
pub(crate) fn value_in<'a>(place: Option<usize>, row: &'a [Value], null: &'a Value) -> &'a Value
    requires { null.now ≡ Null }
    ensures { result.now ≡ spec.value_in place row.now }
{
    match place {
        Some(place) => row.get(place).unwrap_or(null),
        None => null,
    }
}

/// The first so many values of each row, without those of dropped columns.
#[tactic(auto, using(crate::proofs::Projections::all_shown, crate::proofs::Projections::shown_by_flags))]
fn shown_of(
    alloc: Global,
    dropped: &[u16],
    shown: usize,
    rows: Vec<Row>,
) -> Result<Vec<Row>, Memory>
    ensures { IfOk result (λ out. out.items ≡ map (what_shown dropped.now shown) rows.items) }
{
    if dropped.is_empty() {
        return first_of_each(alloc, shown, rows);
    }
    let flags = dropped_flags(alloc, dropped, shown)?;
    unflagged_of_each(alloc, &flags, rows)
}

/// The first so many values of each row.
fn first_of_each(alloc: Global, shown: usize, rows: Vec<Row>) -> Result<Vec<Row>, Memory>
    ensures { IfOk result (λ out. out.items ≡ map (take shown) rows.items) }
{
    let mut out = Vec::with_capacity(alloc, rows.len())?;
    for row in rows {
        let mut values = row.into_vec();
        values.truncate(shown);
        out.push(Items::from_vec(values))?;
    }
    Ok(out)
}

/// The values of each row whose flags are false.
fn unflagged_of_each(alloc: Global, flags: &[bool], rows: Vec<Row>) -> Result<Vec<Row>, Memory>
    ensures { IfOk result (λ out. out.items ≡ map (unflagged flags.now) rows.items) }
{
    let mut out = Vec::with_capacity(alloc, rows.len())?;
    for row in rows {
        out.push(unflagged_values(alloc, flags, row)?)?;
    }
    Ok(out)
}

/// The values of a row whose flags are false. They are moved.
fn unflagged_values(alloc: Global, flags: &[bool], row: Row) -> Result<Row, Memory>
    ensures { IfOk result (λ values. values ≡ unflagged flags.now row) }
{
    let mut values = Vec::with_capacity(alloc, row.len())?;
    for (flag, value) in flags.iter().zip(row.into_vec()) {
        push_unless(&mut values, *flag, value)?;
    }
    Ok(Items::from_vec(values))
}

fn push_unless(values: &mut Vec<Value>, flag: bool, value: Value) -> Result<(), Memory>
    ensures { OnOk result (values.new.items ≡ values.old.items ++ unless flag value) }
{
    if !flag {
        values.push(value)?;
    }
    Ok(())
}

/// The places of columns.
fn places_of(alloc: Global, columns: &Columns, names: &[Name]) -> Result<Vec<Option<usize>>, Memory>
    ensures { IfOk result (λ places. places.items ≡ map (columns_spec.place_of columns.now) names.now) }
{
    let mut places = Vec::with_capacity(alloc, names.len())?;
    for name in names {
        places.push(columns.place_of(name))?;
    }
    Ok(places)
}

/// The values of a row at some places.
#[tactic(auto, unfolding(crate::specs::Places::values_at))]
fn values_in(alloc: Global, places: &[Option<usize>], row: &[Value]) -> Result<Row, Memory>
    ensures { IfOk result (λ values. values ≡ values_at places.now row.now) }
{
    let null = Value::Null;
    let mut values = Vec::with_capacity(alloc, places.len())?;
    for &place in places {
        values.push(value_in(place, row, &null).copy()?)?;
    }
    Ok(Items::from_vec(values))
}

/// The values of each row at some places.
fn rows_at(alloc: Global, places: &[Option<usize>], rows: &[Row]) -> Result<Vec<Row>, Memory>
    ensures { IfOk result (λ out. out.items ≡ map (values_at places.now) rows.now) }
{
    let mut out = Vec::with_capacity(alloc, rows.len())?;
    for row in rows {
        out.push(values_in(alloc, places, row.as_slice())?)?;
    }
    Ok(out)
}

/// The values of each row in the columns of these names.
#[tactic(auto, using(crate::proofs::Projections::by_places))]
fn projected(
    alloc: Global,
    columns: &Columns,
    names: &[Name],
    rows: &[Row],
) -> Result<Vec<Row>, Memory>
    ensures { IfOk result (λ out. out.items ≡ map (spec.projected columns.now names.now) rows.now) }
{
    let places = places_of(alloc, columns, names)?;
    rows_at(alloc, &places, rows)
}

/// What a SELECT shows of the rows that it took; `*` shows the first `shown` columns without the dropped ones, which are
/// given by their ordinals.
pub(crate) fn apply_select_list(
    alloc: Global,
    columns: &Columns,
    dropped: &[u16],
    shown: usize,
    what: &SelectList,
    rows: Vec<Row>,
) -> Result<Vec<Row>, Refusal>
    ensures { ItemsMatchUnlessOom (spec.apply_select_list columns.now dropped.now shown what.now rows.items) result }
{
    match what {
        SelectList::All => Ok(shown_of(alloc, dropped, shown, rows)?),
        SelectList::Columns(names) => Ok(projected(alloc, columns, names.as_slice(), &rows)?),
        SelectList::Aggs(aggs) => {
            let mut out = Vec::with_capacity(alloc, 1)?;
            out.push(aggregates(alloc, columns, aggs.as_slice(), &rows)?)?;
            Ok(out)
        }
    }
}
