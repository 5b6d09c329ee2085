//! The versions that stand, in key order.

ghost use Rattle.std.specs.Prelude.{◌≡◌, IfOk, map};
ghost use Rattle.spec_model.specs.Rows.{live};
ghost use Rattle.spec_model.specs.Keys as spec;

use crate::keyed::KeyedTable;
use crate::keys::has_key;
use crate::order::sort_by_key;
use base_types::Memory;
use sql_types::{Key, Version};
use sql_value::Value;
use std::alloc::Global;

/// The versions without an end, in key order: those of one key, or all. Looks at each version once.
#[tactic(auto, unfolding(spec_model::specs::Keys::live_by_key_at))]
pub fn live_by_key<'a>(
    alloc: Global,
    table: &KeyedTable,
    key: &Option<Key>,
    versions: &'a [Version],
) -> Result<Vec<&'a Version>, Memory>
    ensures { IfOk result (λ found. map (λ v. v.now) found.items
        ≡ spec.live_by_key table.now.columns key.now versions.now) }
{
    let mut live_by_key = live_versions(alloc, table, key, versions)?;
    sort_by_key(table, &mut live_by_key)?;
    Ok(live_by_key)
}

/// The versions without an end: those of one key, or all.
fn live_versions<'a>(
    alloc: Global,
    table: &KeyedTable,
    key: &Option<Key>,
    versions: &'a [Version],
) -> Result<Vec<&'a Version>, Memory>
    ensures { IfOk result (λ found. map (λ v. v.now) found.items
        ≡ live (spec.part_read table.now.columns key.now versions.now)) }
{
    match key {
        Some(key) => live_of_key(alloc, table, key.as_slice(), versions),
        None => all_live(alloc, versions),
    }
}

fn all_live<'a>(alloc: Global, versions: &'a [Version]) -> Result<Vec<&'a Version>, Memory>
    ensures { IfOk result (λ found. map (λ v. v.now) found.items ≡ live versions.now) }
{
    let mut found = Vec::new(alloc);
    for version in versions {
        if version.end.is_none() {
            found.push(version)?;
        }
    }
    Ok(found)
}

fn live_of_key<'a>(
    alloc: Global,
    table: &KeyedTable,
    key: &[Value],
    versions: &'a [Version],
) -> Result<Vec<&'a Version>, Memory>
    ensures { IfOk result (λ found. map (λ v. v.now) found.items
        ≡ live (spec.of_key table.now.columns key.now versions.now)) }
{
    let mut found = Vec::new(alloc);
    for version in versions {
        if has_key(table, version, key) && version.end.is_none() {
            found.push(version)?;
        }
    }
    Ok(found)
}
