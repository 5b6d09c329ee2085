//! The rows about the columns of a table: one says that the column was created or added, and at most one that it was
//! dropped.

ghost use Rattle.std.specs.Prelude.{◌≡◌, ◌&&◌, ◌||◌, not, nat_le, length, IfOk};
ghost use Rattle.std.specs.List.{filter, list_all};
ghost use Rattle.spec_model.specs.Keys.{value_at};
ghost use Rattle.spec_rules.specs.Columns as spec;
ghost use Rattle.spec_rules.specs.Rows as words;
ghost use Rattle.audit_rules.specs.Seen.{row_of, seen};

use crate::names::{NameOf, has_name_of_dropped};
use crate::rows::{
    PlacedVersion, firsts, has_no_change, has_proper_text, is_same_thing, number, says_dropped,
    seconds,
};
use audit_definitions::is_ledger_name;
use base_types::Memory;
use sql_parts::Valued;
use sql_value::Value;
use std::alloc::Global;

/// The places of the columns of the table of columns.
const ITEM: usize = 1;

const NAME: usize = 3;

const NULLABLE: usize = 7;

const KEY_POSITION: usize = 8;

/// Whether the rows about the columns of a table are right. More than two about a column are found at once.
#[tactic(auto, unfolding(spec_rules::specs::Columns::columns_are_right))]
pub(crate) fn columns_are_right(alloc: Global, columns: &[PlacedVersion]) -> Result<bool, Memory>
    ensures { IfOk result (λ are. are ≡ spec.columns_are_right (seen columns.now)) }
{
    if !have_two_at_most(columns) {
        return Ok(false);
    }
    let first = firsts(alloc, 1, columns)?;
    if !are_new(&first) {
        return Ok(false);
    }
    let second = seconds(alloc, 1, columns)?;
    are_dropped(alloc, &first, &second)
}

/// Whether at most two rows are about each column. Where more are it is found within the first few rows.
fn have_two_at_most(columns: &[PlacedVersion]) -> bool
    ensures { result ≡ list_all (λ r. nat_le (length (filter (words.same_thing 1 r) (seen columns.now))) 2)
        (seen columns.now) }
{
    for row in columns {
        if !has_two_at_most(columns, row) {
            return false;
        }
    }
    true
}

fn has_two_at_most(columns: &[PlacedVersion], row: &PlacedVersion) -> bool
    ensures { result ≡ nat_le (length (filter (words.same_thing 1 (row_of row.now)) (seen columns.now))) 2 }
{
    let mut count: usize = 0;
    for other in columns {
        if is_same_thing(ITEM, row, other) {
            count += 1;
        }
    }
    count <= 2
}

fn are_new(first: &[PlacedVersion]) -> bool
    ensures { result ≡ list_all spec.is_new_column (seen first.now) }
{
    for row in first {
        if !is_new_column(row) {
            return false;
        }
    }
    true
}

/// Whether the name of the column begins as those of the columns that the ledger adds.
fn has_ledger_text(row: &PlacedVersion) -> bool
    ensures { result ≡ spec.is_ledger_text (value_at (row_of row.now).row 3) }
{
    match row.version.value_at(NAME) {
        Some(Value::Text(text)) => is_ledger_name(text.bytes()),
        None | Some(Value::Null | Value::Num { .. } | Value::Bytes(_) | Value::Date(_)) => false,
    }
}

fn is_nullable(row: &PlacedVersion) -> bool
    ensures { result ≡ spec.is_nullable (row_of row.now) }
{
    number(row, NULLABLE) == 1
}

fn is_new_column(row: &PlacedVersion) -> bool
    ensures { result ≡ spec.is_new_column (row_of row.now) }
{
    has_proper_text(row, NAME)
        && !has_ledger_text(row)
        && (has_no_change(1, row) || is_nullable(row) && number(row, KEY_POSITION) == 0)
}

fn drops_column(
    alloc: Global,
    first: &PlacedVersion,
    second: &PlacedVersion,
) -> Result<bool, Memory>
    ensures { IfOk result (λ is. is ≡ spec.drops_column (row_of first.now) (row_of second.now)) }
{
    if !is_nullable(second) || !says_dropped(second) {
        return Ok(false);
    }
    let column = NameOf {
        what: "Column",
        at: NAME,
        number: ITEM,
    };
    has_name_of_dropped(alloc, &column, first, second)
}

/// Whether the row drops its column, if that is the one of the first row.
fn follows(alloc: Global, first: &PlacedVersion, second: &PlacedVersion) -> Result<bool, Memory>
    ensures { IfOk result (λ is. is
        ≡ (not (words.same_thing 1 (row_of first.now) (row_of second.now))
        || spec.drops_column (row_of first.now) (row_of second.now))) }
{
    if !is_same_thing(ITEM, first, second) {
        return Ok(true);
    }
    drops_column(alloc, first, second)
}

fn follows_all(
    alloc: Global,
    first: &[PlacedVersion],
    second: &PlacedVersion,
) -> Result<bool, Memory>
    ensures { IfOk result (λ is. is ≡ list_all (λ f. not (words.same_thing 1 f (row_of second.now))
        || spec.drops_column f (row_of second.now)) (seen first.now)) }
{
    for row in first {
        if !follows(alloc, row, second)? {
            return Ok(false);
        }
    }
    Ok(true)
}

fn are_dropped(
    alloc: Global,
    first: &[PlacedVersion],
    second: &[PlacedVersion],
) -> Result<bool, Memory>
    ensures { IfOk result (λ are. are
        ≡ list_all (λ s. list_all (λ f. not (words.same_thing 1 f s) || spec.drops_column f s) (seen first.now))
        (seen second.now)) }
{
    for row in second {
        if !follows_all(alloc, first, row)? {
            return Ok(false);
        }
    }
    Ok(true)
}
