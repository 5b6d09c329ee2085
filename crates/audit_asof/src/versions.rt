//! The versions of a table as some transactions left them.

ghost use Rattle.std.specs.Prelude.{◌≡◌, ◌++◌, flat_map, map, IfOk, OnOk};
ghost use Rattle.spec_model.specs.Lists.{sorted, is_among};
ghost use Rattle.spec_model.specs.Rows.{start_cmp};
ghost use Rattle.spec_asof.specs.DatabaseAt as spec;
ghost use Rattle.audit_asof.specs.Kept.{kept_by};

use crate::earlier_txs::EarlierTxs;
use base_types::{Items, Memory};
use sql_types::{EventId, TableRows, Version};
use std::alloc::Global;

/// The versions of a table that these transactions left, by rising start. They are moved out of the rows. Takes an
/// ordered search for each start and end, and the time of sorting two lists that are in order.
#[tactic(auto, unfolding(spec_asof::specs::DatabaseAt::versions_at), using(crate::proofs::Kept::both_kept))]
pub(crate) fn versions_at(
    alloc: Global,
    txs: &EarlierTxs,
    rows: TableRows,
) -> Result<Vec<Version>, Memory>
    ensures { IfOk result (λ versions. versions.items ≡ spec.versions_at (is_among txs.now) rows) }
{
    let TableRows { base, history, .. } = rows;
    let mut kept = Vec::with_capacity(alloc, base.len())?;
    keep_all(txs, base, &mut kept)?;
    keep_all(txs, history, &mut kept)?;
    sort_by_start(&mut kept)?;
    Ok(kept)
}

/// Adds the versions that one of these transactions started.
fn keep_all(
    txs: &EarlierTxs,
    versions: Items<Version>,
    kept: &mut Vec<Version>,
) -> Result<(), Memory>
    ensures { OnOk result (kept.new.items
        ≡ kept.old.items ++ flat_map (kept_by (is_among txs.now)) versions) }
{
    for version in versions.into_vec() {
        keep(txs, version, kept)?;
    }
    Ok(())
}

/// Adds the version, if one of these transactions started it.
fn keep(txs: &EarlierTxs, version: Version, kept: &mut Vec<Version>) -> Result<(), Memory>
    ensures { OnOk result (kept.new.items ≡ kept.old.items ++ kept_by (is_among txs.now) version) }
{
    if txs.has(version.start.tx) {
        kept.push(with_end_at(txs, version))?;
    }
    Ok(())
}

fn with_end_at(txs: &EarlierTxs, version: Version) -> Version
    ensures { result ≡ spec.with_end_at (is_among txs.now) version }
{
    Version {
        end: end_at(txs, version.end),
        ..version
    }
}

fn end_at(txs: &EarlierTxs, end: Option<EventId>) -> Option<EventId>
    ensures { result ≡ spec.end_at (is_among txs.now) end }
{
    match end {
        Some(event) if txs.has(event.tx) => Some(event),
        _ => None,
    }
}

fn sort_by_start(versions: &mut Vec<Version>) -> Result<(), Memory>
    ensures { OnOk result (versions.new.items ≡ sorted start_cmp versions.old.items) }
{
    versions.sort_by(|a, b| a.start.cmp(&b.start))?;
    Ok(())
}

/// The versions with as many values as there are columns.
pub(crate) fn cut_to(
    alloc: Global,
    columns: usize,
    versions: Vec<Version>,
) -> Result<Vec<Version>, Memory>
    ensures { IfOk result (λ cut. cut.items ≡ map (spec.cut_to columns) versions.items) }
{
    let mut cut = Vec::with_capacity(alloc, versions.len())?;
    for version in versions {
        cut.push(cut_one(columns, version))?;
    }
    Ok(cut)
}

fn cut_one(columns: usize, version: Version) -> Version
    ensures { result ≡ spec.cut_to columns version }
{
    let mut values = version.values.into_vec();
    values.truncate(columns);
    Version {
        values: Items::from_vec(values),
        ..version
    }
}
