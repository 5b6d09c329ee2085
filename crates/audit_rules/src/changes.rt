//! The order of the changes of a table and of its columns.

ghost use Rattle.std.specs.Prelude.{◌≡◌, ◌++◌, map, IfOk, OnOk};
ghost use Rattle.std.specs.List.{list_all};
ghost use Rattle.spec_rules.specs.OrderOfChanges as spec;
ghost use Rattle.spec_rules.specs.Rows as words;
ghost use Rattle.audit_rules.specs.Seen.{row_of, seen};

use crate::rows::{PlacedVersion, change, is_before, item_of};
use audit_columns::Rank;
use base_types::Memory;
use std::alloc::Global;

/// A change, and the place of its row.
type PlacedChange = (i128, Rank);

/// Whether the changes of a table and of its columns stand in order, where the second rows about the table and the
/// first ones about columns are known.
#[tactic(auto, unfolding(spec_rules::specs::OrderOfChanges::changes_are_in_order))]
pub(crate) fn changes_are_in_order(
    alloc: Global,
    tables: &[PlacedVersion],
    second_tables: &[PlacedVersion],
    columns: &[PlacedVersion],
    first_columns: &[PlacedVersion],
) -> Result<bool, Memory>
    requires tables { seen second_tables.now ≡ words.seconds 0 (seen tables.now) }
    requires columns { seen first_columns.now ≡ words.firsts 1 (seen columns.now) }
    ensures { IfOk result (λ are. are ≡ spec.changes_are_in_order (seen tables.now) (seen columns.now)) }
{
    let changes = changes_of(alloc, tables, columns)?;
    Ok(rise(&changes) && rise_by_ordinal(first_columns) && are_greatest(&changes, second_tables))
}

fn changes_of(
    alloc: Global,
    tables: &[PlacedVersion],
    columns: &[PlacedVersion],
) -> Result<Vec<PlacedChange>, Memory>
    ensures { IfOk result (λ changes. changes.items ≡ spec.changes_in (seen tables.now) (seen columns.now)) }
{
    let mut changes = Vec::new(alloc);
    add_changes(0, tables, &mut changes)?;
    add_changes(1, columns, &mut changes)?;
    Ok(changes)
}

fn add_changes(
    thing: u8,
    rows: &[PlacedVersion],
    changes: &mut Vec<PlacedChange>,
) -> Result<(), Memory>
    ensures { OnOk result (changes.new.items ≡ changes.old.items ++ map (spec.change_at thing) (seen rows.now)) }
{
    for row in rows {
        changes.push((change(thing, row), row.place))?;
    }
    Ok(())
}

fn rises(a: PlacedChange, b: PlacedChange) -> bool
    ensures { result ≡ spec.rises a b }
{
    !a.0.cmp(&b.0).is_lt() || is_before(a.1, b.1)
}

fn rises_to_all(a: PlacedChange, changes: &[PlacedChange]) -> bool
    ensures { result ≡ list_all (spec.rises a) changes.now }
{
    changes.iter().all(|b| rises(a, *b))
}

fn rise(changes: &[PlacedChange]) -> bool
    ensures { result ≡ list_all (λ a. list_all (spec.rises a) changes.now) changes.now }
{
    changes.iter().all(|a| rises_to_all(*a, changes))
}

fn rises_by_ordinal(a: &PlacedVersion, b: &PlacedVersion) -> bool
    ensures { result ≡ spec.rises_by_ordinal (row_of a.now) (row_of b.now) }
{
    !item_of(a).cmp(&item_of(b)).is_lt() || !change(1, a).cmp(&change(1, b)).is_gt()
}

fn rises_by_ordinal_to_all(a: &PlacedVersion, columns: &[PlacedVersion]) -> bool
    ensures { result ≡ list_all (spec.rises_by_ordinal (row_of a.now)) (seen columns.now) }
{
    for b in columns {
        if !rises_by_ordinal(a, b) {
            return false;
        }
    }
    true
}

fn rise_by_ordinal(columns: &[PlacedVersion]) -> bool
    ensures { result ≡ list_all (λ a. list_all (spec.rises_by_ordinal a) (seen columns.now)) (seen columns.now) }
{
    for a in columns {
        if !rises_by_ordinal_to_all(a, columns) {
            return false;
        }
    }
    true
}

fn is_greatest(changes: &[PlacedChange], row: &PlacedVersion) -> bool
    ensures { result ≡ spec.is_greatest changes.now (row_of row.now) }
{
    let last = change(0, row);
    changes.iter().all(|one| !one.0.cmp(&last).is_gt())
}

fn are_greatest(changes: &[PlacedChange], rows: &[PlacedVersion]) -> bool
    ensures { result ≡ list_all (spec.is_greatest changes.now) (seen rows.now) }
{
    for row in rows {
        if !is_greatest(changes, row) {
            return false;
        }
    }
    true
}
