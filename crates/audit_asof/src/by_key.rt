//! The order of a table's live rows by key, which is made once and then searched.

ghost use Rattle.std.specs.Prelude.{◌≡◌, ◌≤◌, IfOk, OnOk, None, Some, filter_map, length, map, slice_get};
ghost use Rattle.std.specs.List.{prefix_len};
ghost use Rattle.std.specs.Option.{option_copied};
ghost use Rattle.spec_model.specs.Lists.{sorted};
ghost use Rattle.spec_model.specs.Keys.{live_by_key_at};
ghost use Rattle.audit_asof.specs.KeyOrder as spec;
ghost use Rattle.audit_asof.specs.KeyOrder.{ArePlacesOf};

use base_types::Memory;
use sql_parts::{compare_at, compare_to_key};
use sql_types::Version;
use sql_value::Value;
use std::alloc::Global;

/// The places of the live rows among the versions, by the key whose columns stand at these places. Takes the time of
/// sorting them.
#[tactic(auto, unfolding(crate::specs::KeyOrder::key_order))]
pub(crate) fn key_order(
    alloc: Global,
    key: &[usize],
    versions: &[Version],
) -> Result<Vec<usize>, Memory>
    ensures { IfOk result (λ order. order.items ≡ spec.key_order key.now versions.now) }
{
    let mut placed = live_placed(alloc, versions)?;
    sort_by_key(key, &mut placed)?;
    places_of(alloc, &placed)
}

fn live_placed(alloc: Global, versions: &[Version]) -> Result<Vec<(usize, &Version)>, Memory>
    ensures { IfOk result (λ placed. map (λ p. (p.0, p.1.now)) placed.items ≡ spec.live_placed versions.now) }
{
    let mut placed = Vec::new(alloc);
    for place in 0..versions.len() {
        let version = &versions[place];
        if version.end.is_none() {
            placed.push((place, version))?;
        }
    }
    Ok(placed)
}

fn sort_by_key(key: &[usize], placed: &mut Vec<(usize, &Version)>) -> Result<(), Memory>
    ensures { OnOk result (map (λ p. (p.0, p.1.now)) placed.new.items
        ≡ sorted (spec.placed_cmp key.now) (map (λ p. (p.0, p.1.now)) placed.old.items)) }
{
    placed.sort_by(|a, b| compare_at(key, a.1, b.1))?;
    Ok(())
}

fn places_of(alloc: Global, placed: &[(usize, &Version)]) -> Result<Vec<usize>, Memory>
    ensures { IfOk result (λ places. places.items ≡ map spec.place_in (map (λ p. (p.0, p.1.now)) placed.now)) }
{
    let mut places = Vec::with_capacity(alloc, placed.len())?;
    for one in placed {
        places.push(one.0)?;
    }
    Ok(places)
}

/// The places of the live rows of a key. The order is that of these versions. Takes two ordered searches.
pub(crate) fn places_of_key<'a>(
    key: &[usize],
    versions: &[Version],
    order: &'a [usize],
    wanted: &[Value],
) -> &'a [usize]
    requires { order.now ≡ spec.key_order key.now versions.now }
    ensures { ArePlacesOf versions.now result.now (live_by_key_at key.now (Some wanted.now) versions.now) }
{
    let first = count_below(key, versions, order, wanted);
    let behind = count_up_to(key, versions, order, wanted);
    &order[first..behind]
}

/// How many of the rows in this order come before the key.
fn count_below(key: &[usize], versions: &[Version], order: &[usize], wanted: &[Value]) -> usize
    requires { order.now ≡ spec.key_order key.now versions.now }
    ensures count { result ≡ prefix_len (spec.is_below key.now wanted.now)
        (live_by_key_at key.now None versions.now) }
    ensures bound { result ≤ length order.now }
{
    order.partition_point(|place| is_below(key, versions, *place, wanted))
}

/// How many of them don't come behind it.
fn count_up_to(key: &[usize], versions: &[Version], order: &[usize], wanted: &[Value]) -> usize
    requires { order.now ≡ spec.key_order key.now versions.now }
    ensures count { result ≡ prefix_len (spec.is_up_to key.now wanted.now)
        (live_by_key_at key.now None versions.now) }
    ensures bound { result ≤ length order.now }
{
    order.partition_point(|place| is_up_to(key, versions, *place, wanted))
}

fn is_below(key: &[usize], versions: &[Version], place: usize, wanted: &[Value]) -> bool
    ensures { result ≡ spec.passes (spec.is_below key.now wanted.now) (slice_get versions.now place) }
{
    match version_at(versions, place) {
        Some(version) => compare_to_key(key, version, wanted).is_lt(),
        None => false,
    }
}

fn is_up_to(key: &[usize], versions: &[Version], place: usize, wanted: &[Value]) -> bool
    ensures { result ≡ spec.passes (spec.is_up_to key.now wanted.now) (slice_get versions.now place) }
{
    match version_at(versions, place) {
        Some(version) => compare_to_key(key, version, wanted).is_le(),
        None => false,
    }
}

fn version_at(versions: &[Version], place: usize) -> Option<&Version>
    ensures { option_copied result ≡ slice_get versions.now place }
{
    versions.get(place)
}

/// The versions at these places.
pub(crate) fn versions_at<'a>(
    alloc: Global,
    versions: &'a [Version],
    places: &[usize],
) -> Result<Vec<&'a Version>, Memory>
    ensures { IfOk result (λ found. map (λ v. v.now) found.items
        ≡ filter_map (slice_get versions.now) places.now) }
{
    let mut found = Vec::with_capacity(alloc, places.len())?;
    for place in places {
        if let Some(version) = version_at(versions, *place) {
            found.push(version)?;
        }
    }
    Ok(found)
}
