//! What the columns of a table keep of the values of a row.

ghost use Rattle.std.specs.Prelude.{◌≡◌, IfOk, map, unwrap_or};
ghost use Rattle.std.specs.List.{zip};
ghost use Rattle.std.specs.Option.{option_copied};
ghost use Rattle.sql_value.specs.declared.value.Value.TheVariants.{Null};
ghost use Rattle.spec_model.specs.Refusals.{MatchesUnlessOom};
ghost use Rattle.spec_model.specs.Lists.{checked_map};
ghost use Rattle.spec_model.specs.Changes as spec;

use base_types::{Items, Memory, Name};
use sql_parts::copy_or_null;
use sql_scalar::to_column;
use sql_types::Row;
use sql_value::{ColumnDef, Refusal, Value};
use std::alloc::Global;

/// What a column keeps of a value. NULL is NullNotAllowed where the column is NOT NULL; for any other value the
/// conversion to the column's type decides, with TypeMismatch for a value of another kind, NumberOutOfRange for a number out of
/// range and ValueTooLong for what is too long.
#[tactic(auto, unfolding(spec_model::specs::Changes::kept))]
pub fn kept(column: &ColumnDef, value: Value) -> Result<Value, Refusal>
    ensures { result ≡ spec.kept column.now value }
{
    match value {
        Value::Null if column.nullable => Ok(Value::Null),
        Value::Null => Err(Refusal::NullNotAllowed),
        _ => Ok(to_column(value, &column.ty)?),
    }
}

/// What the columns keep of a row, each of its own value, from the first to the last: the first that keeps
/// nothing decides the refusal. NoMemory for want of memory.
#[tactic(auto, unfolding(spec_model::specs::Changes::kept_row))]
pub fn kept_row(alloc: Global, columns: &[ColumnDef], row: Row) -> Result<Row, Refusal>
    ensures { MatchesUnlessOom (spec.kept_row columns.now row) result }
{
    kept_each(alloc, columns, row)
}

#[tactic(auto, using(sql_parts::proofs::InTurn::map_after_none))]
fn kept_each(alloc: Global, columns: &[ColumnDef], row: Row) -> Result<Row, Refusal>
    ensures { MatchesUnlessOom (checked_map (λ p. spec.kept p.0 p.1) (zip columns.now row)) result }
{
    let mut values = Vec::with_capacity(alloc, row.len())?;
    for (column, value) in columns.iter().zip(row.into_vec()) {
        values.push(kept(column, value)?)?;
    }
    Ok(Items::from_vec(values))
}

/// The value that a row of VALUES, for the columns with these names, gives the column of this name; none is
/// NULL. Looks through the names once.
pub fn value_named<'a>(names: &[Name], row: &'a [Value], name: &Name) -> Option<&'a Value>
    ensures { unwrap_or (option_copied result) Null ≡ spec.value_named (zip names.now row.now) name.now }
{
    match names {
        [] => None,
        [first, names @ ..] => match row {
            [] => None,
            [value, row @ ..] => {
                if *first == *name {
                    Some(value)
                } else {
                    value_named(names, row, name)
                }
            }
        },
    }
}

/// The values of a row of VALUES in the order of the columns, copied: as they are where no columns are
/// listed, and else NULL where a column isn't listed. Looks through the listed columns once for each column.
#[tactic(auto, unfolding(spec_model::specs::Changes::arranged))]
pub fn arranged(
    alloc: Global,
    columns: &[ColumnDef],
    names: &Option<Items<Name>>,
    row: &[Value],
) -> Result<Row, Memory>
    ensures { IfOk result (λ arranged. arranged ≡ spec.arranged columns.now names.now row.now) }
{
    match names {
        Some(names) => arranged_by(alloc, columns, names.as_slice(), row),
        None => copy_of(alloc, row),
    }
}

fn arranged_by(
    alloc: Global,
    columns: &[ColumnDef],
    names: &[Name],
    row: &[Value],
) -> Result<Row, Memory>
    ensures { IfOk result (λ arranged. arranged
        ≡ map (λ c. spec.value_named (zip names.now row.now) c.name) columns.now) }
{
    let mut values = Vec::with_capacity(alloc, columns.len())?;
    for column in columns {
        values.push(copy_or_null(value_named(names, row, &column.name))?)?;
    }
    Ok(Items::from_vec(values))
}

fn copy_of(alloc: Global, row: &[Value]) -> Result<Row, Memory>
    ensures { IfOk result (λ copy. copy ≡ row.now) }
{
    let mut values = Vec::with_capacity(alloc, row.len())?;
    for value in row {
        values.push(value.copy()?)?;
    }
    Ok(Items::from_vec(values))
}
