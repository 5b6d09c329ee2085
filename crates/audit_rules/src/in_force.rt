//! Rows in force at a place: the last one about each thing before it.

ghost use Rattle.std.specs.Prelude.{◌≡◌, ◌&&◌, IfOk};
ghost use Rattle.std.specs.List.{filter, list_any};
ghost use Rattle.spec_rules.specs.ColumnNames as spec;
ghost use Rattle.spec_rules.specs.Places.{stands_before};
ghost use Rattle.spec_rules.specs.Rows as words;
ghost use Rattle.audit_rules.specs.Seen.{row_of, seen};

use crate::rows::{PlacedVersion, is_before, is_same_thing, is_same_value};
use audit_columns::Rank;
use base_types::Memory;
use std::alloc::Global;

fn earlier_than<'a>(
    alloc: Global,
    place: Rank,
    rows: &[PlacedVersion<'a>],
) -> Result<Vec<PlacedVersion<'a>>, Memory>
    ensures { IfOk result (λ earlier. seen earlier.items ≡ words.earlier_than place (seen rows.now)) }
{
    let mut earlier = Vec::new(alloc);
    for row in rows {
        if is_before(row.place, place) {
            earlier.push(*row)?;
        }
    }
    Ok(earlier)
}

fn is_later(other: &PlacedVersion, row: &PlacedVersion) -> bool
    ensures { result ≡ (words.same_thing 1 (row_of other.now) (row_of row.now)
        && stands_before row.now.place other.now.place) }
{
    is_same_thing(1, other, row) && is_before(row.place, other.place)
}

fn is_last_of(rows: &[PlacedVersion], row: &PlacedVersion) -> bool
    ensures { result ≡ words.is_last_of 1 (seen rows.now) (row_of row.now) }
{
    for other in rows {
        if is_later(other, row) {
            return false;
        }
    }
    true
}

/// The place of the name in the rows of columns.
const NAME: usize = 3;

/// Whether a column has the name of this row, by the rows before its place.
fn has_name_in_force(earlier: &[PlacedVersion], row: &PlacedVersion) -> bool
    ensures { result ≡ list_any (spec.same_column_name (row_of row.now))
        (filter (words.is_last_of 1 (seen earlier.now)) (seen earlier.now)) }
{
    for other in earlier {
        if is_same_value(NAME, row, other) && is_last_of(earlier, other) {
            return true;
        }
    }
    false
}

/// Whether a column has the name of this row at its place.
fn is_name_taken(
    alloc: Global,
    columns: &[PlacedVersion],
    row: &PlacedVersion,
) -> Result<bool, Memory>
    ensures { IfOk result (λ is. is ≡ list_any (spec.same_column_name (row_of row.now))
        (words.in_force 1 row.now.place (seen columns.now))) }
{
    let earlier = earlier_than(alloc, row.place, columns)?;
    Ok(has_name_in_force(&earlier, row))
}

/// Whether no row about a column gives a name that a column has then.
#[tactic(auto, unfolding(spec_rules::specs::ColumnNames::column_names_are_new))]
pub(crate) fn column_names_are_new(alloc: Global, columns: &[PlacedVersion]) -> Result<bool, Memory>
    ensures { IfOk result (λ are. are ≡ spec.column_names_are_new (seen columns.now)) }
{
    for row in columns {
        if is_name_taken(alloc, columns, row)? {
            return Ok(false);
        }
    }
    Ok(true)
}
