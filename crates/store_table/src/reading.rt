//! The versions of some starts.

ghost use Rattle.std.specs.Prelude.{◌≡◌, IfOk, filter_map, map, slice_get, slice_range};
ghost use Rattle.std.specs.Option.{option_copied};
ghost use Rattle.spec_model.specs.Runs.{Rising};
ghost use Rattle.store_table.specs.Orders as spec;

use crate::searching::version_at;
use base_types::Memory;
use sql_types::Version;
use std::alloc::Global;
use store_order::Starts;

/// A stretch of an order: the place of its first start, and the one behind its last.
#[derive(Clone, Copy, Debug)]
pub struct OrderRange {
    pub first: usize,
    pub behind: usize,
}

/// The versions of the starts in a stretch of an order, each found by a guess and halving.
pub(crate) fn versions_of<'a>(
    alloc: Global,
    versions: &'a [Version],
    order: &Starts,
    stretch: OrderRange,
) -> Result<Vec<&'a Version>, Memory>
    requires { Rising versions.now }
    ensures { IfOk result (λ found. map (λ v. v.now) found.items ≡ filter_map
        (λ s. spec.version_at s versions.now) (slice_range order.now.list stretch.first stretch.behind)) }
{
    let OrderRange { first, behind } = stretch;
    let mut found = Vec::with_capacity(alloc, behind.saturating_sub(first))?;
    for place in first..behind {
        if let Some(version) = version_in(versions, order, place) {
            found.push(version)?;
        }
    }
    Ok(found)
}

// The version whose start stands at this place of an order.
fn version_in<'a>(versions: &'a [Version], order: &Starts, place: usize) -> Option<&'a Version>
    requires { Rising versions.now }
    ensures { option_copied result
        ≡ spec.version_of (slice_get order.now.list place) versions.now }
{
    match order.get(place) {
        Some(start) => version_at(versions, start),
        None => None,
    }
}
