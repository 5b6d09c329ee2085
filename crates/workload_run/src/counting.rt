//! What is counted of an image.

ghost use Rattle.std.specs.Prelude.{◌≡◌, IfOk};
ghost use Rattle.spec_model.specs.Rows.{value_or_null, values_of};
ghost use Rattle.law_workload.specs.Tables.{number_in, second, total};
ghost use Rattle.workload_run.specs.Figures.{amount, history_count, row_count};

use base_types::Memory;
use sql_types::{TableRows, TypedValue, Version};
use sql_value::Value;

/// What is counted of some tables.
#[derive(Clone, Copy, Debug)]
pub struct TableTotals {
    /// How many rows stand there.
    pub rows: u64,
    /// How many versions have ended.
    pub history: u64,
    /// The sum of what the rows have in their second column.
    pub sum: u128,
}

/// A whole number that isn't negative; 0 for all else.
fn number_in(value: &Option<TypedValue>) -> u128
    ensures { result ≡ number_in (value_or_null value.now) }
{
    match value {
        Some(
            TypedValue {
                value: Value::Num { v, .. },
                ..
            },
        ) if *v >= 0 => *v as u128,
        _ => 0,
    }
}

/// What a row has in its second column.
fn second(version: &Version) -> u128
    ensures { result ≡ second (values_of version.now) }
{
    match version.values.get(1) {
        Some(value) => number_in(value),
        None => 0,
    }
}

fn total(rows: &[Version]) -> Result<u128, Memory>
    ensures { IfOk result (λ sum. sum ≡ total rows.now) }
{
    let mut sum = 0u128;
    for row in rows {
        sum = sum.checked_add(second(row)).ok_or(Memory)?;
    }
    Ok(sum)
}

/// What is counted of some tables. Want of memory is also answered where a number is too large for its type.
pub(crate) fn count_tables(tables: &[TableRows]) -> Result<TableTotals, Memory>
    ensures rows { IfOk result (λ c. c.rows ≡ row_count tables.now) }
    ensures history { IfOk result (λ c. c.history ≡ history_count tables.now) }
    ensures sum { IfOk result (λ c. c.sum ≡ amount tables.now) }
{
    let mut so_far = TableTotals {
        rows: 0,
        history: 0,
        sum: 0,
    };
    for table in tables {
        so_far = TableTotals {
            rows: so_far
                .rows
                .checked_add(table.base.len() as u64)
                .ok_or(Memory)?,
            history: so_far
                .history
                .checked_add(table.history.len() as u64)
                .ok_or(Memory)?,
            sum: so_far
                .sum
                .checked_add(total(table.base.as_slice())?)
                .ok_or(Memory)?,
        };
    }
    Ok(so_far)
}
