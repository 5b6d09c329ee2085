//! The ids of starts and ends in order, so that those of a transaction stand together.

ghost use Rattle.std.specs.Prelude.{◌≡◌, ◌==◌, ◌++◌, IfOk, OnOk, map, flat_map};
ghost use Rattle.std.specs.List.{filter};
ghost use Rattle.std.specs.List.Sorted.{IsNonDecreasingBy};
ghost use Rattle.spec_model.specs.Lists.{sorted};
ghost use Rattle.spec_model.specs.Rows.{event_cmp};
ghost use Rattle.audit_roots.specs.EventIds.{AreIds, ids_shown, number_in, tx_in, version_ids};
ghost use Rattle.audit_roots.specs.ImageTable.{table_of};

use crate::shown::ImageTable;
use base_types::{Memory, TxId};
use sql_types::{EventId, Version};
use std::alloc::Global;

/// The ids of the starts and ends of all versions of these tables, by the transaction and then by number.
/// Takes the time of sorting them. The only error is want of memory.
pub(crate) fn sorted_ids(alloc: Global, tables: &[ImageTable]) -> Result<Vec<EventId>, Memory>
    ensures { IfOk result (λ ids. AreIds (map table_of tables.now) ids.items) }
{
    let mut ids = Vec::new(alloc);
    add_tables(tables, &mut ids)?;
    sort_ids(&mut ids)?;
    Ok(ids)
}

fn add_tables(tables: &[ImageTable], ids: &mut Vec<EventId>) -> Result<(), Memory>
    ensures { OnOk result (ids.new.items ≡ ids.old.items ++ flat_map ids_shown tables.now) }
{
    for table in tables {
        add_table(table, ids)?;
    }
    Ok(())
}

#[tactic(auto, using(crate::proofs::EventIds::ids_of_parts))]
fn add_table(table: &ImageTable, ids: &mut Vec<EventId>) -> Result<(), Memory>
    ensures { OnOk result (ids.new.items ≡ ids.old.items ++ ids_shown table.now) }
{
    add_versions(table.rows.base.as_slice(), ids)?;
    add_versions(table.rows.history.as_slice(), ids)
}

fn add_versions(versions: &[Version], ids: &mut Vec<EventId>) -> Result<(), Memory>
    ensures { OnOk result (ids.new.items ≡ ids.old.items ++ flat_map version_ids versions.now) }
{
    for version in versions {
        add_version(version, ids)?;
    }
    Ok(())
}

fn add_version(version: &Version, ids: &mut Vec<EventId>) -> Result<(), Memory>
    ensures { OnOk result (ids.new.items ≡ ids.old.items ++ version_ids version.now) }
{
    ids.push(version.start)?;
    if let Some(end) = version.end {
        ids.push(end)?;
    }
    Ok(())
}

fn sort_ids(ids: &mut Vec<EventId>) -> Result<(), Memory>
    ensures ids { OnOk result (ids.new.items ≡ sorted event_cmp ids.old.items) }
    ensures rise { OnOk result (IsNonDecreasingBy tx_in ids.new.items) }
{
    ids.sort_by(|a, b| a.tx.cmp(&b.tx).then(a.seq.cmp(&b.seq)))?;
    Ok(())
}

/// Those of a transaction, which stand together. Takes two ordered searches.
pub(crate) fn ids_of(ids: &[EventId], tx: TxId) -> &[EventId]
    requires { IsNonDecreasingBy tx_in ids.now }
    ensures { result.now ≡ filter (λ e. tx_in e == tx) ids.now }
{
    let from = ids.partition_point(|id| id.tx < tx);
    let (_, rest) = ids.split_at(from);
    let count = rest.partition_point(|id| id.tx <= tx);
    let (own, _) = rest.split_at(count);
    own
}

/// Their numbers, in place of those that were there.
pub(crate) fn put_numbers(ids: &[EventId], numbers: &mut Vec<u64>) -> Result<(), Memory>
    ensures { OnOk result (numbers.new.items ≡ map number_in ids.now) }
{
    numbers.clear();
    for id in ids {
        numbers.push(id.seq)?;
    }
    Ok(())
}
