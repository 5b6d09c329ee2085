//! Rows whose values stay where they lie.

ghost use Rattle.std.specs.Prelude.{◌≡◌, ◌-◌, [], ◌∷◌, None, length, option_map, slice_get};
ghost use Rattle.std.specs.Option.{option_copied};
ghost use Rattle.sql_types.specs.declared.outcome.Outcome.TheVariants as out;
ghost use Rattle.spec_model.specs.Parts.{base_row};
ghost use Rattle.spec_model.specs.Rows.{number, row_of, value_or_null};
ghost use Rattle.sql_expr.specs.OutcomeRef.{outcome_of};

use crate::seen::{OutcomeRef, value_ref};
use sql_types::{EventId, TypedValue, Version};
use sql_value::{ColumnDef, Value};
use std::marker::Model;

/// A row in which expressions are evaluated, which contracts see as the list of its values. Nothing is
/// copied.
#[derive(Debug, Drop)]
pub struct RowRef<'a> {
    place: RowSource<'a>,
}

/// Where the values of a row lie.
#[derive(Debug, Drop)]
enum RowSource<'a> {
    Values(&'a [Value]),
    /// The row of the base part, under these declared columns.
    LiveRow(&'a [ColumnDef], &'a Version),
}

impl<'a> Model for RowRef<'a> {
    ghost use Rattle.std.specs.Prelude.{List};
    ghost use Rattle.sql_value.specs.declared.value.Value.{Value as AnyValue};
    ghost use Rattle.sql_expr.specs.Rows.{row_at};

    ghost Value = { List AnyValue };

    ghost view = { λ r. row_at r.place };
}

impl<'a> RowRef<'a> {
    /// The row of these values.
    pub fn of(values: &'a [Value]) -> RowRef<'a>
        ensures { result ≡ values.now }
    {
        RowRef {
            place: RowSource::Values(values),
        }
    }

    /// The row of the base part that a version is under the declared columns: its values, NULL for each column
    /// behind them, and then its start.
    pub fn of_version(declared: &'a [ColumnDef], version: &'a Version) -> RowRef<'a>
        ensures { result ≡ base_row declared.now version.now }
    {
        RowRef {
            place: RowSource::LiveRow(declared, version),
        }
    }

    /// The value at a place, seen.
    pub fn seen_at(&self, place: usize) -> Option<OutcomeRef<'a>>
        ensures { option_map outcome_of result ≡ option_map out.Value (slice_get self.now place) }
    {
        match self.place {
            RowSource::Values(values) => seen_in(values, place),
            RowSource::LiveRow(declared, version) => seen_in_version(declared, version, place),
        }
    }
}

fn seen_in(values: &[Value], place: usize) -> Option<OutcomeRef<'_>>
    ensures { option_map outcome_of result ≡ option_map out.Value (slice_get values.now place) }
{
    match values.get(place) {
        Some(value) => Some(value_ref(value)),
        None => None,
    }
}

fn seen_in_version<'a>(
    declared: &[ColumnDef],
    version: &'a Version,
    place: usize,
) -> Option<OutcomeRef<'a>>
    ensures { option_map outcome_of result
        ≡ option_map out.Value (slice_get (base_row declared.now version.now) place) }
{
    match stored_at(version, place) {
        Some(stored) => Some(seen_stored(stored)),
        None => seen_behind(declared, version, place),
    }
}

/// The value at a place behind the stored ones: NULL for each column that has none, and then the start.
#[tactic(auto, using(crate::proofs::Rows::null_in, crate::proofs::Rows::start_in))]
fn seen_behind<'a>(
    declared: &[ColumnDef],
    version: &Version,
    place: usize,
) -> Option<OutcomeRef<'a>>
    requires { slice_get version.now.values place ≡ None }
    ensures { option_map outcome_of result
        ≡ option_map out.Value (slice_get (base_row declared.now version.now) place) }
{
    if place < declared.len() {
        return Some(OutcomeRef::Null);
    }
    seen_start(version.start, behind_values(declared, version, place))
}

fn stored_at(version: &Version, place: usize) -> Option<&Option<TypedValue>>
    ensures { option_copied result ≡ slice_get version.now.values place }
{
    version.values.get(place)
}

/// How far a place lies behind the values of the row.
#[tactic(auto, using(crate::proofs::Rows::width))]
fn behind_values(declared: &[ColumnDef], version: &Version, place: usize) -> usize
    ensures { result ≡ place - length (row_of declared.now version.now) }
{
    place.saturating_sub(version.values.len().max(declared.len()))
}

fn seen_stored(stored: &Option<TypedValue>) -> OutcomeRef<'_>
    ensures { outcome_of result ≡ out.Value (value_or_null stored.now) }
{
    match stored {
        Some(typed) => value_ref(&typed.value),
        None => OutcomeRef::Null,
    }
}

/// The transaction of a version's start, and behind it the number there.
fn seen_start<'a>(start: EventId, place: usize) -> Option<OutcomeRef<'a>>
    ensures { option_map outcome_of result
        ≡ option_map out.Value (slice_get (number start.0 ∷ number start.1 ∷ []) place) }
{
    match place {
        0 => Some(seen_count(start.tx)),
        1 => Some(seen_count(start.seq)),
        _ => None,
    }
}

fn seen_count<'a>(n: u64) -> OutcomeRef<'a>
    ensures { outcome_of result ≡ out.Value (number n) }
{
    OutcomeRef::Number { v: n.into(), s: 0 }
}
