//! Which rows of a system table count: of those about one thing the one with the greatest change.

ghost use Rattle.std.specs.Prelude.{◌≡◌, None, IfOk, OnOk};
ghost use Rattle.spec_model.specs.Lists.{sorted};
ghost use Rattle.spec_model.specs.Rows.{values_of};
ghost use Rattle.law_catalog_rows.specs.Latest as spec;
ghost use Rattle.audit_definitions.specs.DefinitionRows.{row_seen, rows_in, rows_seen};
ghost use Rattle.audit_definitions.specs.LatestRows.{change_cmp, is_older, latest_of, newest};

use crate::first_values::number_at;
use base_types::Memory;
use sql_types::Version;
use std::alloc::Global;
use std::cmp::Ordering;

/// The rows of the table of tables that count: for each table the one with the greatest change.
pub(crate) fn latest_table_rows(
    alloc: Global,
    versions: &[Version],
) -> Result<Vec<&Version>, Memory>
    ensures { IfOk result (λ latest. rows_seen latest.items ≡ latest_of 0 (rows_in versions.now)) }
{
    let rows = all_of(alloc, versions)?;
    latest_rows(alloc, 0, &rows)
}

/// Those of the rows that count, where the number at this place says what each is about, and the number behind it
/// is its change. Sorts them once.
pub(crate) fn latest_rows<'a>(
    alloc: Global,
    place: u8,
    rows: &[&'a Version],
) -> Result<Vec<&'a Version>, Memory>
    ensures { IfOk result (λ latest. rows_seen latest.items ≡ latest_of place (rows_seen rows.now)) }
{
    let mut sorted = copied(alloc, rows)?;
    sort_by_change(place, &mut sorted)?;
    newest(alloc, place, &sorted)
}

fn all_of(alloc: Global, versions: &[Version]) -> Result<Vec<&Version>, Memory>
    ensures { IfOk result (λ found. rows_seen found.items ≡ rows_in versions.now) }
{
    let mut found = Vec::with_capacity(alloc, versions.len())?;
    for version in versions {
        found.push(version)?;
    }
    Ok(found)
}

fn copied<'a>(alloc: Global, rows: &[&'a Version]) -> Result<Vec<&'a Version>, Memory>
    ensures { IfOk result (λ found. rows_seen found.items ≡ rows_seen rows.now) }
{
    let mut found = Vec::new(alloc);
    found.extend_from_slice(rows)?;
    Ok(found)
}

fn sort_by_change(place: u8, rows: &mut Vec<&Version>) -> Result<(), Memory>
    ensures { OnOk result (rows_seen rows.new.items ≡ sorted (change_cmp place) (rows_seen rows.old.items)) }
{
    rows.sort_by(|a, b| compare_changes(place, *a, *b))?;
    Ok(())
}

/// By what they are about, and the greater change first.
fn compare_changes(place: u8, a: &Version, b: &Version) -> Ordering
    ensures { result ≡ change_cmp place (values_of a.now) (values_of b.now) }
{
    thing_of(place, a)
        .cmp(&thing_of(place, b))
        .then(change_of(place, b).cmp(&change_of(place, a)))
}

fn thing_of(place: u8, row: &Version) -> i128
    ensures { result ≡ spec.number_at place (values_of row.now) }
{
    number_at(row, usize::from(place))
}

/// The change of the row, which stands behind what it is about.
pub(crate) fn change_of(place: u8, row: &Version) -> i128
    ensures { result ≡ spec.change_of place (values_of row.now) }
{
    number_at(row, usize::from(place) + 1)
}

/// Whether the first row is about the same thing as the second, and has a greater change.
pub fn is_past(place: u8, a: &Version, b: &Version) -> bool
    ensures { result ≡ spec.is_past place (values_of a.now) (values_of b.now) }
{
    thing_of(place, a) == thing_of(place, b)
        && change_of(place, a).cmp(&change_of(place, b)).is_gt()
}

fn is_older(place: u8, last: Option<&Version>, row: &Version) -> bool
    ensures { result ≡ is_older place (row_seen last.entry) (values_of row.now) }
{
    match last {
        Some(last) => is_past(place, last, row),
        None => false,
    }
}

fn newest<'a>(alloc: Global, place: u8, rows: &[&'a Version]) -> Result<Vec<&'a Version>, Memory>
    ensures { IfOk result (λ latest. rows_seen latest.items ≡ newest place None (rows_seen rows.now)) }
{
    let mut latest = Vec::new(alloc);
    let mut last: Option<&'a Version> = None;
    for row in rows {
        if !is_older(place, last, *row) {
            latest.push(*row)?;
            last = Some(*row);
        }
    }
    Ok(latest)
}
