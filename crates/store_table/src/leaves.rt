//! The leaves of the events that changes are.

ghost use Rattle.std.specs.Prelude.{◌≡◌, ◌≤◌, ◌<◌, ◌+◌, ◌^◌, ◌∷◌, [], IfOk, List, length, map};
ghost use Rattle.std.specs.List.{AllByRecursion};
ghost use Rattle.sql_value.specs.declared.column.ColumnDef.{ColumnDef};
ghost use Rattle.law_journal.specs.Fits.{Fits, FitsSoFar};
ghost use Rattle.spec_model.specs.Limits.{max_columns};
ghost use Rattle.spec_model.specs.Runs.{Rising};
ghost use Rattle.format_event.specs.EventRef as views;
ghost use Rattle.format_event.specs.Leaf.{event_bytes};
ghost use Rattle.store_table.specs.Made.{IsMade, event_of, events_made};

use crate::searching::version_at;
use base_types::{Blob, Memory, TableId, TxId};
use format_event::{EventRef, write_leaf};
use law_events::are_utf8_texts;
use sql_types::{Change, EventId, Version};
use std::alloc::Global;

// So many bytes a leaf of few values takes; longer ones grow.
const LEAF_ROOM: usize = 128;

/// The leaf of an event of a row that fits its table.
pub fn leaf_of(alloc: Global, event: &EventRef) -> Result<Blob, Memory>
    requires { (columns : List ColumnDef) × (length columns ≤ max_columns) × Fits columns event.now.values.now }
    ensures { IfOk result (λ leaf. leaf ≡ event_bytes (views.event_of event.now)) }
{
    leaf_of_version(alloc, event)
}

// The leaf of an event of a row that fits its table so far.
fn leaf_of_version(alloc: Global, event: &EventRef) -> Result<Blob, Memory>
    requires { (columns : List ColumnDef) × (length columns ≤ max_columns) × FitsSoFar columns event.now.values.now }
    ensures { IfOk result (λ leaf. leaf ≡ event_bytes (views.event_of event.now)) }
{
    are_utf8_texts(event.values);
    let mut leaf = Vec::with_capacity(alloc, LEAF_ROOM)?;
    write_leaf(event, &mut leaf)?;
    Ok(Blob::from_vec(leaf))
}

// The leaf of a change as this event.
fn leaf_of_change(
    alloc: Global,
    table: TableId,
    at: EventId,
    change: &Change,
    versions: &[Version],
) -> Result<Blob, Memory>
    requires rising { Rising versions.now }
    requires made { (columns : List ColumnDef) × (length columns ≤ max_columns)
        × IsMade columns versions.now change.now }
    ensures { IfOk result (λ leaf. map event_bytes (event_of table at change.now versions.now) ≡ leaf ∷ []) }
{
    match change {
        Change::Starts(values) => {
            let start = EventRef {
                id: at,
                ends: None,
                values: values.as_slice(),
                table,
            };
            leaf_of(alloc, &start)
        }
        Change::Ends(start) => {
            let version = version_at(versions, *start).unwrap();
            let end = EventRef {
                id: at,
                ends: Some(version.start),
                values: version.values.as_slice(),
                table,
            };
            leaf_of_version(alloc, &end)
        }
    }
}

/// The leaves of the changes, one after another, as the events of the transaction that have the numbers from
/// `seq` on. The versions that end are found by a guess and halving.
pub(crate) fn leaves_of(
    alloc: Global,
    table: TableId,
    tx: TxId,
    seq: u64,
    changes: &[Change],
    versions: &[Version],
) -> Result<Vec<Blob>, Memory>
    requires rising { Rising versions.now }
    requires made { (columns : List ColumnDef) × (length columns ≤ max_columns)
        × AllByRecursion (IsMade columns versions.now) changes.now }
    requires room { seq + length changes.now < 2 ^ 64 }
    ensures { IfOk result (λ leaves. leaves.items
        ≡ map event_bytes (events_made table tx seq changes.now versions.now)) }
{
    let mut leaves = Vec::with_capacity(alloc, changes.len())?;
    for place in 0..changes.len() {
        let at = EventId {
            tx,
            seq: seq + place as u64,
        };
        leaves.push(leaf_of_change(alloc, table, at, &changes[place], versions)?)?;
    }
    Ok(leaves)
}
