//! The orders that are kept beside versions, made of all of them: the only work that sorts.

ghost use Rattle.std.specs.Prelude.{◌≡◌, ◌≤◌, IfOk, OnOk, length, map};
ghost use Rattle.std.specs.List.{AllByRecursion};
ghost use Rattle.spec_model.specs.Lists.{sorted};
ghost use Rattle.spec_model.specs.Rows.{live};
ghost use Rattle.spec_model.specs.Runs.{Rising};
ghost use Rattle.store_table.specs.Kept.{AreOf, HasCapacity, HaveCapacity, IsOf, ordinals_of};
ghost use Rattle.store_table.specs.Orders.{row_cmp, starts_of};

use crate::comparing::compare_rows;
use crate::ending::endings_in;
use crate::index::Index;
use crate::leading::lead_of;
use crate::orders::Orders;
use base_types::{Items, Memory};
use sql_types::{IndexDef, Version};
use std::alloc::Global;
use store_order::Starts;

/// The index of these versions by the columns with these ordinals, with room for so many starts.
pub(crate) fn new_index(
    alloc: Global,
    ordinals: &[u16],
    key: &[usize],
    versions: &[Version],
    room: usize,
) -> Result<Index, Memory>
    requires { Rising versions.now }
    ensures of { IfOk result (λ index. IsOf key.now versions.now index) }
    ensures ordinals { IfOk result (λ index. index.ordinals ≡ ordinals.now) }
    ensures room { IfOk result (λ index. HasCapacity room index) }
{
    let mut live_by_key = live_versions(alloc, versions)?;
    sort_rows(ordinals, key, &mut live_by_key)?;
    Ok(Index {
        ordinals: Items::from_vec(Vec::from_slice(alloc, ordinals)?),
        order: starts_of(alloc, ordinals, key, &live_by_key, room)?,
    })
}

fn live_versions(alloc: Global, versions: &[Version]) -> Result<Vec<&Version>, Memory>
    ensures { IfOk result (λ found. map (λ v. v.now) found.items ≡ live versions.now) }
{
    let mut found = Vec::new(alloc);
    for version in versions {
        if version.end.is_none() {
            found.push(version)?;
        }
    }
    Ok(found)
}

fn sort_rows(ordinals: &[u16], key: &[usize], versions: &mut Vec<&Version>) -> Result<(), Memory>
    ensures { OnOk result (map (λ v. v.now) versions.new.items
        ≡ sorted (row_cmp ordinals.now key.now) (map (λ v. v.now) versions.old.items)) }
{
    versions.sort_by(|a, b| compare_rows(ordinals, key, *a, *b))?;
    Ok(())
}

fn starts_of(
    alloc: Global,
    ordinals: &[u16],
    key: &[usize],
    versions: &[&Version],
    room: usize,
) -> Result<Starts, Memory>
    ensures starts { IfOk result (λ starts. starts.list ≡ starts_of (map (λ v. v.now) versions.now)) }
    ensures room { IfOk result (λ starts. room ≤ starts.room) }
{
    let mut starts = Starts::new(alloc);
    starts.reserve(alloc, room.max(versions.len()))?;
    for version in versions {
        let end = starts.len();
        starts.insert(end, version.start, lead_of(ordinals, key, *version));
    }
    Ok(starts)
}

// The indexes of these definitions, with room for all versions.
fn new_indexes(
    alloc: Global,
    key: &[usize],
    defs: &[IndexDef],
    versions: &[Version],
) -> Result<Vec<Index>, Memory>
    requires { Rising versions.now }
    ensures of { IfOk result (λ indexes. AllByRecursion (IsOf key.now versions.now) indexes.items) }
    ensures ordinals { IfOk result (λ indexes. ordinals_of indexes.items ≡ map (λ d. d.ordinals) defs.now) }
    ensures room { IfOk result (λ indexes. AllByRecursion (HasCapacity (length versions.now)) indexes.items) }
{
    let mut indexes = Vec::with_capacity(alloc, defs.len())?;
    for def in defs {
        let ordinals = def.ordinals.as_slice();
        indexes.push(new_index(alloc, ordinals, key, versions, versions.len())?)?;
    }
    Ok(indexes)
}

/// The key order, the ends and the indexes of these definitions, each with room for all versions.
pub(crate) fn new_orders(
    alloc: Global,
    key: &[usize],
    defs: &[IndexDef],
    versions: &[Version],
) -> Result<Orders, Memory>
    requires { Rising versions.now }
    ensures of { IfOk result (AreOf key.now versions.now) }
    ensures ordinals { IfOk result (λ orders. ordinals_of orders.indexes.items
        ≡ map (λ d. d.ordinals) defs.now) }
    ensures room { IfOk result (HaveCapacity (length versions.now)) }
{
    Ok(Orders {
        key_order: new_index(alloc, &[], key, versions, versions.len())?,
        ends: endings_in(alloc, versions)?,
        indexes: new_indexes(alloc, key, defs, versions)?,
    })
}
