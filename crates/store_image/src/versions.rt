//! Versions without what isn't committed.

ghost use Rattle.std.specs.Prelude.{◌≡◌, ◌++◌, flat_map, IfOk, OnOk};
ghost use Rattle.spec_protocol.specs.CommittedTxs as spec;
ghost use Rattle.store_image.specs.Known.{has_in, kept_by};

use crate::ids::CommittedTxs;
use base_types::{Items, Memory};
use format_image_rows::copy_stored;
use sql_types::{EventId, TypedValue, Version};
use std::alloc::Global;

/// Copies of the versions whose start is committed, without ends that aren't. Takes an ordered search for
/// each start and end. The only error is want of memory.
#[tactic(auto, using(crate::proofs::Kept::all_kept))]
pub fn committed_versions(
    alloc: Global,
    known: &CommittedTxs,
    versions: &[Version],
) -> Result<Items<Version>, Memory>
    ensures { IfOk result (λ kept. kept ≡ spec.committed (has_in known.now) versions.now) }
{
    Ok(Items::from_vec(kept_of(alloc, known, versions)?))
}

fn kept_of(
    alloc: Global,
    known: &CommittedTxs,
    versions: &[Version],
) -> Result<Vec<Version>, Memory>
    ensures { IfOk result (λ kept. kept.items ≡ flat_map (kept_by (has_in known.now)) versions.now) }
{
    let mut kept = Vec::new(alloc);
    for version in versions {
        keep(alloc, known, version, &mut kept)?;
    }
    Ok(kept)
}

/// Adds the version, if its start is committed.
fn keep(
    alloc: Global,
    known: &CommittedTxs,
    version: &Version,
    kept: &mut Vec<Version>,
) -> Result<(), Memory>
    ensures { OnOk result (kept.new.items ≡ kept.old.items ++ kept_by (has_in known.now) version.now) }
{
    if known.has(version.start.tx) {
        kept.push(copy_committed(alloc, known, version)?)?;
    }
    Ok(())
}

fn copy_committed(alloc: Global, known: &CommittedTxs, version: &Version) -> Result<Version, Memory>
    ensures { IfOk result (λ copy. copy ≡ spec.with_committed_end (has_in known.now) version.now) }
{
    Ok(Version {
        values: copy_values(alloc, version.values.as_slice())?,
        start: version.start,
        end: committed_end(known, version.end),
    })
}

/// Whether the event is one of a transaction that is known to be committed.
fn is_committed(known: &CommittedTxs, event: EventId) -> bool
    ensures { result ≡ has_in known.now event.0 }
{
    known.has(event.tx)
}

fn committed_end(known: &CommittedTxs, end: Option<EventId>) -> Option<EventId>
    ensures { result ≡ spec.end_committed (has_in known.now) end }
{
    match end {
        Some(event) if is_committed(known, event) => Some(event),
        _ => None,
    }
}

fn copy_values(
    alloc: Global,
    values: &[Option<TypedValue>],
) -> Result<Items<Option<TypedValue>>, Memory>
    ensures { IfOk result (λ copies. copies ≡ values.now) }
{
    let mut copies = Vec::with_capacity(alloc, values.len())?;
    for value in values {
        copies.push(copy_stored(value)?)?;
    }
    Ok(Items::from_vec(copies))
}
