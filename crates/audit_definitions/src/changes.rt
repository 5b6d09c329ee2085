//! The changes of the rows about one table, and what the rows of one item have in common.

ghost use Rattle.std.specs.Prelude.{◌≡◌, ◌&&◌, ◌||◌, ◌==◌, ◌++◌, not, length, IfOk, OnOk};
ghost use Rattle.std.specs.List.{filter, list_all};
ghost use Rattle.std.specs.Ordering.{int_cmp};
ghost use Rattle.spec_model.specs.Lists.{sorted};
ghost use Rattle.spec_model.specs.Rows.{values_of};
ghost use Rattle.law_catalog_rows.specs.Changes as spec;
ghost use Rattle.law_catalog_rows.specs.Latest.{same_number};
ghost use Rattle.audit_definitions.specs.DefinitionRows.{rows_seen};

use crate::first_values::number_at;
use crate::latest_rows::{change_of, is_past};
use base_types::Memory;
use sql_types::Version;
use std::alloc::Global;

/// Whether one row of the table and each row of an index has change 0, and the other changes are 1, 2 and so on,
/// each once. Sorts the changes once.
pub(crate) fn changes_are_right(
    alloc: Global,
    tables: &[&Version],
    items: &[&Version],
) -> Result<bool, Memory>
    ensures { IfOk result (λ are. are ≡ spec.changes_are_right (rows_seen tables.now) (rows_seen items.now)) }
{
    let mut changes = later_changes(alloc, tables, items)?;
    sort_changes(&mut changes)?;
    Ok(has_one_first(tables) && are_indexes_first(items) && count_up(&changes))
}

/// The changes that aren't 0, of the table and of its items.
fn later_changes(
    alloc: Global,
    tables: &[&Version],
    items: &[&Version],
) -> Result<Vec<i128>, Memory>
    ensures { IfOk result (λ changes. changes.items
        ≡ spec.later_changes 0 (rows_seen tables.now) ++ spec.later_changes 1 (rows_seen items.now)) }
{
    let mut changes = Vec::new(alloc);
    for table in tables {
        let change = change_of(0, *table);
        if change != 0 {
            changes.push(change)?;
        }
    }
    for item in items {
        let change = change_of(1, *item);
        if change != 0 {
            changes.push(change)?;
        }
    }
    Ok(changes)
}

fn sort_changes(changes: &mut Vec<i128>) -> Result<(), Memory>
    ensures { OnOk result (changes.new.items ≡ sorted int_cmp changes.old.items) }
{
    changes.sort_by(|a, b| a.cmp(b))?;
    Ok(())
}

/// Whether they are 1, 2 and so on.
fn count_up(changes: &[i128]) -> bool
    ensures { result ≡ spec.counts_up 1 changes.now }
{
    for (place, change) in changes.iter().enumerate() {
        if *change != place as i128 + 1 {
            return false;
        }
    }
    true
}

fn is_first(place: u8, row: &Version) -> bool
    ensures { result ≡ spec.is_first place (values_of row.now) }
{
    change_of(place, row) == 0
}

/// Whether one of the rows of the table has change 0.
fn has_one_first(tables: &[&Version]) -> bool
    ensures { result ≡ (length (filter (spec.is_first 0) (rows_seen tables.now)) == 1) }
{
    let mut count: usize = 0;
    for table in tables {
        if is_first(0, *table) {
            count += 1;
        }
    }
    count == 1
}

/// Whether the row is about a part of an index.
fn is_of_index(item: &Version) -> bool
    ensures { result ≡ spec.is_of_index (values_of item.now) }
{
    number_at(item, 1).cmp(&1000).is_gt()
}

fn are_indexes_first(items: &[&Version]) -> bool
    ensures { result ≡ list_all (λ row. not (spec.is_of_index row) || spec.is_first 1 row) (rows_seen items.now) }
{
    for item in items {
        if is_of_index(*item) && !is_first(1, *item) {
            return false;
        }
    }
    true
}

/// Whether what each of the latest rows says follows from the rows before it about the same item.
pub(crate) fn items_follow(items: &[&Version], latest: &[&Version]) -> bool
    ensures { result ≡ list_all (spec.follows (rows_seen items.now)) (rows_seen latest.now) }
{
    for row in latest {
        if !follows(items, *row) {
            return false;
        }
    }
    true
}

fn follows(items: &[&Version], row: &Version) -> bool
    ensures { result ≡ spec.follows (rows_seen items.now) (values_of row.now) }
{
    all_come_before(items, row) && !(is_dropped(row) && !has_rows_before(items, row))
}

fn all_come_before(items: &[&Version], row: &Version) -> bool
    ensures { result ≡ list_all (spec.comes_before (values_of row.now))
        (spec.rows_before (rows_seen items.now) (values_of row.now)) }
{
    for item in items {
        if is_past(1, row, *item) && !comes_before(row, *item) {
            return false;
        }
    }
    true
}

fn has_rows_before(items: &[&Version], row: &Version) -> bool
    ensures { result ≡ not (length (spec.rows_before (rows_seen items.now) (values_of row.now)) == 0) }
{
    for item in items {
        if is_past(1, row, *item) {
            return true;
        }
    }
    false
}

/// The place of the key position in the rows of items.
const POSITION: usize = 8;

/// Whether the row says that its column was dropped.
fn is_dropped(row: &Version) -> bool
    ensures { result ≡ spec.is_dropped (values_of row.now) }
{
    number_at(row, POSITION) == -1
}

/// The key position in the rows before this one.
fn position_before(row: &Version) -> i128
    ensures { result ≡ spec.position_before (values_of row.now) }
{
    if is_dropped(row) {
        0
    } else {
        number_at(row, POSITION)
    }
}

fn same_at(place: usize, a: &Version, b: &Version) -> bool
    ensures { result ≡ same_number place (values_of a.now) (values_of b.now) }
{
    number_at(a, place) == number_at(b, place)
}

fn same_type(a: &Version, b: &Version) -> bool
    ensures { result ≡ spec.same_type (values_of a.now) (values_of b.now) }
{
    same_at(4, a, b) && same_at(5, a, b) && same_at(6, a, b)
}

fn comes_before(row: &Version, before: &Version) -> bool
    ensures { result ≡ spec.comes_before (values_of row.now) (values_of before.now) }
{
    same_type(before, row) && number_at(before, POSITION) == position_before(row)
}
