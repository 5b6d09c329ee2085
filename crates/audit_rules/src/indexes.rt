//! When indexes were made.

ghost use Rattle.std.specs.Prelude.{◌≡◌, ◌||◌, not, List};
ghost use Rattle.std.specs.List.{list_all};
ghost use Rattle.std.specs.Ordering.{int_cmp, is_lt};
ghost use Rattle.spec_rules.specs.Indexes as spec;
ghost use Rattle.spec_rules.specs.Places.{PlacedRow, stands_before};
ghost use Rattle.spec_rules.specs.Rows as words;
ghost use Rattle.audit_rules.specs.InTime as times;
ghost use Rattle.audit_rules.specs.Seen.{row_of, seen};

use crate::rows::{PlacedVersion, is_before, item_of, number};

/// The place of the key position in the rows of columns and of parts of indexes.
const KEY_POSITION: usize = 8;

/// The rows about a table with which those of its indexes are compared.
#[derive(Clone, Copy)]
pub(crate) struct BesideIndexes<'r, 'a> {
    pub second_tables: &'r [PlacedVersion<'a>],
    pub first_columns: &'r [PlacedVersion<'a>],
    pub second_columns: &'r [PlacedVersion<'a>],
    pub indexes: &'r [PlacedVersion<'a>],
}

/// Whether each index was made in time, beside the first and the second rows about its table and its columns.
#[tactic(auto, unfolding(spec_rules::specs::Indexes::indexes_are_in_time))]
pub(crate) fn indexes_are_in_time(beside: &BesideIndexes) -> bool
    ensures { (tables columns : List PlacedRow) → seen beside.now.second_tables.now ≡ words.seconds 0 tables
        → seen beside.now.first_columns.now ≡ words.firsts 1 columns
        → seen beside.now.second_columns.now ≡ words.seconds 1 columns
        → result ≡ spec.indexes_are_in_time tables columns (seen beside.now.indexes.now) }
{
    are_made_in_time(beside, beside.indexes)
}

fn are_made_in_time(beside: &BesideIndexes, indexes: &[PlacedVersion]) -> bool
    ensures { result ≡ list_all (times.is_in_time (seen beside.now.second_tables.now)
        (seen beside.now.first_columns.now) (seen beside.now.second_columns.now) (seen beside.now.indexes.now))
        (seen indexes.now) }
{
    for index in indexes {
        if !is_made_in_time(beside, index) {
            return false;
        }
    }
    true
}

fn is_made_in_time(beside: &BesideIndexes, index: &PlacedVersion) -> bool
    ensures { result ≡ times.is_in_time (seen beside.now.second_tables.now)
        (seen beside.now.first_columns.now) (seen beside.now.second_columns.now) (seen beside.now.indexes.now)
        (row_of index.now) }
{
    is_before_all(index, beside.second_tables)
        && is_after_lower_ones(index, beside.indexes)
        && is_after_its_column(index, beside.first_columns)
        && is_before_its_drop(index, beside.second_columns)
}

fn is_before_all(index: &PlacedVersion, second: &[PlacedVersion]) -> bool
    ensures { result ≡ list_all (λ (s : PlacedRow). stands_before index.now.place s.place) (seen second.now) }
{
    for row in second {
        if !is_before(index.place, row.place) {
            return false;
        }
    }
    true
}

fn is_after_lower_ones(index: &PlacedVersion, indexes: &[PlacedVersion]) -> bool
    ensures { result ≡ list_all (λ b. not (is_lt (int_cmp (words.item_of b) (words.item_of (row_of index.now))))
        || stands_before b.place index.now.place) (seen indexes.now) }
{
    for other in indexes {
        if !is_higher_or_before(other, index) {
            return false;
        }
    }
    true
}

fn is_higher_or_before(other: &PlacedVersion, index: &PlacedVersion) -> bool
    ensures { result ≡ (not (is_lt (int_cmp (words.item_of (row_of other.now)) (words.item_of (row_of index.now))))
        || stands_before other.now.place index.now.place) }
{
    !item_of(other).cmp(&item_of(index)).is_lt() || is_before(other.place, index.place)
}

fn is_column_of(index: &PlacedVersion, column: &PlacedVersion) -> bool
    ensures { result ≡ spec.is_column_of (row_of index.now) (row_of column.now) }
{
    item_of(column) == number(index, KEY_POSITION)
}

fn is_after_its_column(index: &PlacedVersion, first: &[PlacedVersion]) -> bool
    ensures { result ≡ list_all (λ c. not (spec.is_column_of (row_of index.now) c)
        || stands_before c.place index.now.place) (seen first.now) }
{
    for column in first {
        if is_column_of(index, column) && !is_before(column.place, index.place) {
            return false;
        }
    }
    true
}

fn is_before_its_drop(index: &PlacedVersion, second: &[PlacedVersion]) -> bool
    ensures { result ≡ list_all (λ c. not (spec.is_column_of (row_of index.now) c)
        || stands_before index.now.place c.place) (seen second.now) }
{
    for column in second {
        if is_column_of(index, column) && !is_before(index.place, column.place) {
            return false;
        }
    }
    true
}
