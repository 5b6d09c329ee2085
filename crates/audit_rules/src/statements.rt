//! Whether the rows of a transaction are those of one statement.

ghost use Rattle.std.specs.Prelude.{◌≡◌, ◌==◌, ◌&&◌, ◌+ℤ◌, ℕ, pos, map, List};
ghost use Rattle.std.specs.List.{filter, list_all, list_any};
ghost use Rattle.std.specs.List.Sorted.{IsNonDecreasingBy};
ghost use Rattle.std.specs.Ordering.{int_eq};
ghost use Rattle.spec_rules.specs.OneStatement as spec;
ghost use Rattle.spec_rules.specs.Places.{PlacedRow, rooted_at};
ghost use Rattle.spec_rules.specs.Rows as words;
ghost use Rattle.audit_rules.specs.ByPosition.{AreByPosition, is_one};
ghost use Rattle.audit_rules.specs.Seen.{position_in, row_of, seen};

use crate::rows::{PlacedVersion, has_no_change, is_about, is_column_row, item_of};
use base_types::{Hash, TableId};
use sql_types::TxEntry;

/// The rows of a transaction in the two system tables.
#[derive(Clone, Copy)]
struct Started<'r, 'a> {
    tables: &'r [PlacedVersion<'a>],
    items: &'r [PlacedVersion<'a>],
}

fn number_of(row: &PlacedVersion) -> u64
    ensures { result ≡ spec.number_of (row_of row.now) }
{
    row.place.1
}

// ---- the rows of a statement

fn is_column_created(row: &PlacedVersion) -> bool
    ensures { result ≡ spec.is_column_created (row_of row.now) }
{
    is_column_row(row) && has_no_change(1, row) && item_of(row) == i128::from(number_of(row))
}

fn are_columns_created(items: &[PlacedVersion]) -> bool
    ensures { result ≡ list_all spec.is_column_created (seen items.now) }
{
    for row in items {
        if !is_column_created(row) {
            return false;
        }
    }
    true
}

fn creates_table(started: &Started) -> bool
    ensures { result ≡ spec.creates_table (seen started.now.tables.now) (seen started.now.items.now) }
{
    match started.tables {
        [row] => has_no_change(0, row) && number_of(row) == 0 && are_columns_created(started.items),
        _ => false,
    }
}

fn starts_an_index(item: i128) -> bool
    ensures { result ≡ spec.starts_an_index item }
{
    item > 1000 && item % 1000 == 1
}

/// Whether the second item is so far above the first.
fn is_above(item: i128, first: i128, count: u64) -> bool
    ensures { result ≡ int_eq item (first +ℤ pos count) }
{
    match first.checked_add(i128::from(count)) {
        Some(sum) => item == sum,
        None => false,
    }
}

fn continues_index(first: i128, row: &PlacedVersion) -> bool
    ensures { result ≡ spec.continues_index first (row_of row.now) }
{
    has_no_change(1, row) && is_above(item_of(row), first, number_of(row))
}

fn all_continue_index(first: i128, items: &[PlacedVersion]) -> bool
    ensures { result ≡ list_all (spec.continues_index first) (seen items.now) }
{
    for row in items {
        if !continues_index(first, row) {
            return false;
        }
    }
    true
}

/// Whether one of the items is the first of an index, and all go on from there.
fn make_an_index(items: &[PlacedVersion]) -> bool
    ensures { result ≡ list_any (λ f. spec.starts_an_index (words.item_of f)
        && list_all (spec.continues_index (words.item_of f)) (seen items.now)) (seen items.now) }
{
    for row in items {
        if starts_an_index(item_of(row)) && all_continue_index(item_of(row), items) {
            return true;
        }
    }
    false
}

fn creates_index(started: &Started) -> bool
    ensures { result ≡ spec.creates_index (seen started.now.tables.now) (seen started.now.items.now) }
{
    match started.tables {
        [] => make_an_index(started.items),
        _ => false,
    }
}

fn alters_table(started: &Started) -> bool
    ensures { result ≡ spec.alters_table (seen started.now.tables.now) (seen started.now.items.now) }
{
    match (started.tables, started.items) {
        ([], [row]) => !has_no_change(1, row),
        _ => false,
    }
}

fn drops_table(started: &Started) -> bool
    ensures { result ≡ spec.drops_table (seen started.now.tables.now) (seen started.now.items.now) }
{
    match (started.tables, started.items) {
        ([row], []) => !has_no_change(0, row),
        _ => false,
    }
}

fn are_of_one_statement(started: &Started) -> bool
    ensures { result ≡ spec.are_of_one_statement (seen started.now.tables.now) (seen started.now.items.now) }
{
    creates_table(started)
        || creates_index(started)
        || alters_table(started)
        || drops_table(started)
}

// ---- transactions

/// The system tables.
const TABLES: TableId = 1;

const COLUMNS: TableId = 2;

/// Whether the entry at this position has roots of system tables alone.
fn is_rooted_in_system(entries: &[TxEntry], position: usize) -> bool
    ensures { result ≡ list_all spec.is_system_table (rooted_at entries.now position) }
{
    match entries.get(position) {
        Some(entry) => are_of_system(entry.roots.as_slice()),
        None => true,
    }
}

fn are_of_system(roots: &[(TableId, Hash)]) -> bool
    ensures { result ≡ list_all spec.is_system_table (map (λ (r : ℕ × List ℕ). r.0) roots.now) }
{
    for root in roots {
        if root.0 != TABLES && root.0 != COLUMNS {
            return false;
        }
    }
    true
}

/// Those of the entry at this position, which stand together. Takes two ordered searches.
fn started_at<'r, 'a>(rows: &'r [PlacedVersion<'a>], position: usize) -> &'r [PlacedVersion<'a>]
    requires { IsNonDecreasingBy position_in rows.now }
    ensures { result.now ≡ filter (λ r. position_in r == position) rows.now }
{
    let from = rows.partition_point(|row| row.place.0 < position);
    let (_, rest) = rows.split_at(from);
    let count = rest.partition_point(|row| row.place.0 <= position);
    let (own, _) = rest.split_at(count);
    own
}

fn are_about(table: TableId, rows: &[PlacedVersion]) -> bool
    ensures { result ≡ list_all (words.is_about_table (pos table)) (seen rows.now) }
{
    for row in rows {
        if !is_about(i128::from(table), row) {
            return false;
        }
    }
    true
}

/// Entries, and the rows of the system tables by the positions of their entries.
#[derive(Clone, Copy)]
pub(crate) struct ByPosition<'r, 'a> {
    pub entries: &'r [TxEntry],
    pub tables: &'r [PlacedVersion<'a>],
    pub items: &'r [PlacedVersion<'a>],
}

/// Whether the rows of the transaction with the entry at this position are those of one statement about the table.
fn is_one_statement(by_position: &ByPosition, table: TableId, position: usize) -> bool
    requires { AreByPosition by_position.now }
    ensures { result ≡ is_one by_position.now.entries.now by_position.now.tables.now by_position.now.items.now
        (pos table) position }
{
    let started = Started {
        tables: started_at(by_position.tables, position),
        items: started_at(by_position.items, position),
    };
    is_rooted_in_system(by_position.entries, position)
        && are_about(table, started.tables)
        && are_about(table, started.items)
        && are_of_one_statement(&started)
}

/// Whether each transaction in which one of these rows starts is one statement about the table.
fn are_statements(by_position: &ByPosition, table: TableId, own: &[PlacedVersion]) -> bool
    requires { AreByPosition by_position.now }
    ensures { result ≡ list_all (λ (r : PlacedRow). is_one by_position.now.entries.now by_position.now.tables.now
        by_position.now.items.now (pos table) r.place.0) (seen own.now) }
{
    for row in own {
        if !is_one_statement(by_position, table, row.place.0) {
            return false;
        }
    }
    true
}

/// Whether each transaction in which one of these rows about the table starts is one statement about it.
pub(crate) fn one_statement(
    by_position: &ByPosition,
    table: TableId,
    tables: &[PlacedVersion],
    items: &[PlacedVersion],
) -> bool
    requires { AreByPosition by_position.now }
    ensures { result ≡ (list_all (λ (r : PlacedRow). is_one by_position.now.entries.now by_position.now.tables.now
        by_position.now.items.now (pos table) r.place.0) (seen tables.now)
        && list_all (λ (r : PlacedRow). is_one by_position.now.entries.now by_position.now.tables.now
        by_position.now.items.now (pos table) r.place.0) (seen items.now)) }
{
    are_statements(by_position, table, tables) && are_statements(by_position, table, items)
}
