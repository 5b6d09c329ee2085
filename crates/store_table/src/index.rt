//! An index: its columns, and its order.

ghost use Rattle.std.specs.Prelude.{◌≡◌, ◌<◌, ◌+◌, ℕ, None, OnOk, length, map};
ghost use Rattle.std.specs.List.{AllByRecursion, HoldsAt, prefix_len, remove};
ghost use Rattle.spec_model.specs.Rows.{live};
ghost use Rattle.spec_model.specs.Runs.{Rising};
ghost use Rattle.store_table.specs.Kept.{HasCapacity, IsOf, IsWith, index_seen};
ghost use Rattle.store_table.specs.Orders.{has_row_below, in_order, place_of};

use crate::leading::lead_of;
use crate::searching::{place_in_order, start_has_row_below};
use base_types::{Items, Memory};
use sql_types::Version;
use std::alloc::Global;
use store_order::Starts;

/// The ordinals of the columns of an index, and the starts of the versions that stand, sorted by these
/// columns, then by key, and then by start. An index without columns is the key order.
#[derive(Debug, Drop)]
pub struct Index {
    pub ordinals: Items<u16>,
    pub order: Starts,
}

/// Puts the start of a version in its place. Takes no memory.
pub(crate) fn add_start(index: &mut Index, key: &[usize], versions: &[Version], version: &Version)
    requires rising { Rising versions.now }
    requires order { IsOf key.now versions.now index.old }
    requires room { HasCapacity (length (live versions.now) + 1) index.old }
    ensures order { IsWith key.now version.now versions.now index.new }
    ensures ordinals { index.new.ordinals ≡ index.old.ordinals }
    ensures room { (n : ℕ) → HasCapacity n index.old → HasCapacity n index.new }
{
    let place = place_in_order(
        index.ordinals.as_slice(),
        key,
        versions,
        &index.order,
        version,
    );
    let lead = lead_of(index.ordinals.as_slice(), key, version);
    index.order.insert(place, version.start, lead);
}

// Where the version at this place of the versions, which stands, is in the order of an index. Mostly it is found
// by its lead and its start, else by comparing rows.
fn place_of_live(index: &Index, key: &[usize], versions: &[Version], place: usize) -> usize
    requires rising { Rising versions.now }
    requires order { IsOf key.now versions.now index.now }
    requires within { place < length versions.now }
    requires is_live { HoldsAt (λ v. v.end ≡ None) versions.now place }
    ensures { HoldsAt (λ v. result ≡ place_of index.now.ordinals key.now v versions.now) versions.now place }
{
    let version = &versions[place];
    let ordinals = index.ordinals.as_slice();
    let lead = lead_of(ordinals, key, version);
    match index.order.find_near(lead, version.start) {
        Some(found) => found,
        None => place_in_order(ordinals, key, versions, &index.order, version),
    }
}

/// Takes out the start of the version at this place, which stands.
pub(crate) fn take_start(index: &mut Index, key: &[usize], versions: &[Version], place: usize)
    requires rising { Rising versions.now }
    requires order { IsOf key.now versions.now index.old }
    requires within { place < length versions.now }
    requires is_live { HoldsAt (λ v. v.end ≡ None) versions.now place }
    ensures order { IsOf key.now (remove versions.now place) index.new }
    ensures ordinals { index.new.ordinals ≡ index.old.ordinals }
    ensures room { (n : ℕ) → HasCapacity n index.old → HasCapacity n index.new }
{
    let found = place_of_live(index, key, versions, place);
    index.order.remove(found);
}

/// Puts the start of a version in its place in each index. Takes no memory.
pub(crate) fn add_start_to_all(
    indexes: &mut Vec<Index>,
    key: &[usize],
    versions: &[Version],
    version: &Version,
)
    requires rising { Rising versions.now }
    requires order { AllByRecursion (IsOf key.now versions.now) indexes.old.items }
    requires room { AllByRecursion (HasCapacity (length (live versions.now) + 1)) indexes.old.items }
    ensures order { AllByRecursion (IsWith key.now version.now versions.now) indexes.new.items }
    ensures ordinals { map (λ i. i.ordinals) indexes.new.items ≡ map (λ i. i.ordinals) indexes.old.items }
    ensures room { (n : ℕ) → AllByRecursion (HasCapacity n) indexes.old.items
        → AllByRecursion (HasCapacity n) indexes.new.items }
{
    for index in indexes.iter_mut() {
        add_start(index, key, versions, version);
    }
}

/// Takes out the start of the version at this place, which stands, from each index.
pub(crate) fn take_start_from_all(
    indexes: &mut Vec<Index>,
    key: &[usize],
    versions: &[Version],
    place: usize,
)
    requires rising { Rising versions.now }
    requires order { AllByRecursion (IsOf key.now versions.now) indexes.old.items }
    requires within { place < length versions.now }
    requires is_live { HoldsAt (λ v. v.end ≡ None) versions.now place }
    ensures order { AllByRecursion (IsOf key.now (remove versions.now place)) indexes.new.items }
    ensures ordinals { map (λ i. i.ordinals) indexes.new.items ≡ map (λ i. i.ordinals) indexes.old.items }
    ensures room { (n : ℕ) → AllByRecursion (HasCapacity n) indexes.old.items
        → AllByRecursion (HasCapacity n) indexes.new.items }
{
    for index in indexes.iter_mut() {
        take_start(index, key, versions, place);
    }
}

/// Makes room for so many starts.
pub(crate) fn reserve_index(alloc: Global, index: &mut Index, count: usize) -> Result<(), Memory>
    ensures same { index_seen index.new ≡ index_seen index.old }
    ensures room { (n : ℕ) → HasCapacity n index.old → HasCapacity n index.new }
    ensures ok { OnOk result (HasCapacity count index.new) }
{
    index.order.reserve(alloc, count)
}

/// Makes room for so many starts in each index. For want of memory some of them may have got room.
pub(crate) fn reserve_indexes(
    alloc: Global,
    indexes: &mut Vec<Index>,
    count: usize,
) -> Result<(), Memory>
    ensures same { map index_seen indexes.new.items ≡ map index_seen indexes.old.items }
    ensures room { (n : ℕ) → AllByRecursion (HasCapacity n) indexes.old.items
        → AllByRecursion (HasCapacity n) indexes.new.items }
    ensures ok { OnOk result (AllByRecursion (HasCapacity count) indexes.new.items) }
{
    for index in indexes.iter_mut() {
        reserve_index(alloc, index, count)?;
    }
    Ok(())
}

/// How many rows of the index come before that of this version.
pub(crate) fn rows_below(
    index: &Index,
    key: &[usize],
    versions: &[Version],
    version: &Version,
) -> usize
    requires rising { Rising versions.now }
    requires order { IsOf key.now versions.now index.now }
    ensures { result ≡ prefix_len (has_row_below index.now.ordinals key.now version.now)
        (in_order index.now.ordinals key.now versions.now) }
{
    let ordinals = index.ordinals.as_slice();
    let lead = lead_of(ordinals, key, version);
    index.order.partition_point(
        lead,
        |start| start_has_row_below(ordinals, key, versions, *start, version),
    )
}
