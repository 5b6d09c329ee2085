//! The rows about a table: one says that it was created, and at most one that it was dropped.

ghost use Rattle.std.specs.Prelude.{◌≡◌, ◌+ℤ◌, pos, nat_lt, length, IfOk, List};
ghost use Rattle.std.specs.Ordering.{int_eq};
ghost use Rattle.spec_rules.specs.Places.{PlacedRow};
ghost use Rattle.spec_rules.specs.Rows as words;
ghost use Rattle.spec_rules.specs.Tables as spec;
ghost use Rattle.audit_rules.specs.Seen.{row_of, seen};

use crate::names::{NameOf, has_name_of_dropped};
use crate::rows::{PlacedVersion, firsts, has_proper_text, is_null, number, seconds};
use base_types::Memory;
use std::alloc::Global;

/// The places of the columns of the table of tables.
const ID: usize = 0;

const NAME: usize = 2;

const KIND: usize = 3;

const HISTORY: usize = 4;

const VIEW: usize = 5;

/// Whether the rows about a table are right. Of more than two it is known at once that they aren't.
pub(crate) fn tables_are_right(alloc: Global, tables: &[PlacedVersion]) -> Result<bool, Memory>
    ensures { IfOk result (λ are. are ≡ spec.tables_are_right (seen tables.now)) }
{
    if has_many(tables) {
        return Ok(false);
    }
    let first = firsts(alloc, 0, tables)?;
    let second = seconds(alloc, 0, tables)?;
    are_right(alloc, &first, &second)
}

fn has_many(tables: &[PlacedVersion]) -> bool
    ensures { result ≡ nat_lt 2 (length (seen tables.now)) }
{
    tables.len() > 2
}

/// Whether they are, by the first rows and the second ones.
#[tactic(auto, unfolding(spec_rules::specs::Tables::tables_are_right))]
fn are_right(
    alloc: Global,
    first: &[PlacedVersion],
    second: &[PlacedVersion],
) -> Result<bool, Memory>
    ensures { IfOk result (λ are. (tables : List PlacedRow) → seen first.now ≡ words.firsts 0 tables
        → seen second.now ≡ words.seconds 0 tables → are ≡ spec.tables_are_right tables) }
{
    match (first, second) {
        ([created], []) => Ok(is_new_table(created)),
        ([created], [dropped]) => { Ok(is_new_table(created) && drops(alloc, created, dropped)?) }
        _ => Ok(false),
    }
}

fn is_new_table(row: &PlacedVersion) -> bool
    ensures { result ≡ spec.is_new_table (row_of row.now) }
{
    let kind = number(row, KIND);
    (kind == 1 || kind == 2)
        && has_proper_text(row, NAME)
        && (is_null(row, HISTORY) || has_proper_text(row, HISTORY))
        && has_proper_text(row, VIEW)
}

/// Whether the kind is that of a table of the other kind that was dropped.
fn is_kind_dropped(kind: i128, before: i128) -> bool
    ensures { result ≡ int_eq kind (before +ℤ pos 2) }
{
    match before.checked_add(2) {
        Some(dropped) => kind == dropped,
        None => false,
    }
}

fn drops(alloc: Global, first: &PlacedVersion, second: &PlacedVersion) -> Result<bool, Memory>
    ensures { IfOk result (λ is. is ≡ spec.drops (row_of first.now).row (row_of second.now).row) }
{
    if !is_kind_dropped(number(second, KIND), number(first, KIND)) {
        return Ok(false);
    }
    let table = NameOf {
        what: "Table",
        at: NAME,
        number: ID,
    };
    if !has_name_of_dropped(alloc, &table, first, second)? {
        return Ok(false);
    }
    let history = NameOf {
        what: "History",
        at: HISTORY,
        number: ID,
    };
    if !has_name_of_dropped(alloc, &history, first, second)? {
        return Ok(false);
    }
    let view = NameOf {
        what: "View",
        at: VIEW,
        number: ID,
    };
    has_name_of_dropped(alloc, &view, first, second)
}
