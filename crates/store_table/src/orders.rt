//! The orders that are kept beside the versions of a table.

ghost use Rattle.std.specs.Prelude.{◌≡◌, ◌<◌, ◌+◌, ℕ, None, OnOk, Some, length};
ghost use Rattle.std.specs.List.{HoldsAt, remove};
ghost use Rattle.spec_model.specs.Rows.{live};
ghost use Rattle.spec_model.specs.Runs.{Rising};
ghost use Rattle.store_table.specs.Kept.{AreOf, HaveCapacity, SeenAlike, IndexesAreOf, IndexesAreWith, ordinals_of};

use crate::ending::{Ending, reserve_ends, take_ending};
use crate::index::{
    Index, add_start, add_start_to_all, reserve_index, reserve_indexes, take_start,
    take_start_from_all,
};
use base_types::Memory;
use sql_types::{EventId, Version};
use std::alloc::Global;

/// The key order, the ends in the order of their events, by which those of a transaction are found, and the
/// indexes.
#[derive(Debug, Drop)]
pub struct Orders {
    pub key_order: Index,
    pub ends: Vec<Ending>,
    pub indexes: Vec<Index>,
}

/// Puts a version that stands in its place in the key order and in each index. Takes no memory.
pub(crate) fn add_live(orders: &mut Orders, key: &[usize], versions: &[Version], version: &Version)
    requires rising { Rising versions.now }
    requires are_indexed { IndexesAreOf key.now versions.now orders.old }
    requires room { HaveCapacity (length (live versions.now) + 1) orders.old }
    ensures are_indexed { IndexesAreWith key.now version.now versions.now orders.new }
    ensures ends { orders.new.ends ≡ orders.old.ends }
    ensures ordinals { ordinals_of orders.new.indexes.items ≡ ordinals_of orders.old.indexes.items }
    ensures room { (n : ℕ) → HaveCapacity n orders.old → HaveCapacity n orders.new }
{
    add_start(&mut orders.key_order, key, versions, version);
    add_start_to_all(&mut orders.indexes, key, versions, version);
}

/// Takes out what the orders have of the version at this place.
pub(crate) fn take_version(orders: &mut Orders, key: &[usize], versions: &[Version], place: usize)
    requires rising { Rising versions.now }
    requires are { AreOf key.now versions.now orders.old }
    requires within { place < length versions.now }
    ensures are { AreOf key.now (remove versions.now place) orders.new }
    ensures ordinals { ordinals_of orders.new.indexes.items ≡ ordinals_of orders.old.indexes.items }
    ensures room { (n : ℕ) → HaveCapacity n orders.old → HaveCapacity n orders.new }
{
    let version = &versions[place];
    match version.end {
        Some(end) => take_ended(orders, key, versions, place, end),
        None => take_live(orders, key, versions, place),
    }
}

fn take_live(orders: &mut Orders, key: &[usize], versions: &[Version], place: usize)
    requires rising { Rising versions.now }
    requires are { AreOf key.now versions.now orders.old }
    requires within { place < length versions.now }
    requires is_live { HoldsAt (λ v. v.end ≡ None) versions.now place }
    ensures are { AreOf key.now (remove versions.now place) orders.new }
    ensures ordinals { ordinals_of orders.new.indexes.items ≡ ordinals_of orders.old.indexes.items }
    ensures room { (n : ℕ) → HaveCapacity n orders.old → HaveCapacity n orders.new }
{
    take_start(&mut orders.key_order, key, versions, place);
    take_start_from_all(&mut orders.indexes, key, versions, place);
}

fn take_ended(orders: &mut Orders, key: &[usize], versions: &[Version], place: usize, end: EventId)
    requires rising { Rising versions.now }
    requires are { AreOf key.now versions.now orders.old }
    requires within { place < length versions.now }
    requires ended { HoldsAt (λ v. v.end ≡ Some end) versions.now place }
    ensures are { AreOf key.now (remove versions.now place) orders.new }
    ensures ordinals { ordinals_of orders.new.indexes.items ≡ ordinals_of orders.old.indexes.items }
    ensures room { (n : ℕ) → HaveCapacity n orders.old → HaveCapacity n orders.new }
{
    let start = versions[place].start;
    take_ending(&mut orders.ends, Ending { end, start });
}

/// Makes room for so many starts. For want of memory some of the orders may have got room.
pub(crate) fn reserve_orders(alloc: Global, orders: &mut Orders, count: usize) -> Result<(), Memory>
    ensures same { SeenAlike orders.old orders.new }
    ensures room { (n : ℕ) → HaveCapacity n orders.old → HaveCapacity n orders.new }
    ensures ok { OnOk result (HaveCapacity count orders.new) }
{
    reserve_index(alloc, &mut orders.key_order, count)?;
    reserve_ends(&mut orders.ends, count)?;
    reserve_indexes(alloc, &mut orders.indexes, count)
}
