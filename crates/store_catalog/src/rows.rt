//! Rows that start in a table of the system.

ghost use Rattle.std.specs.Prelude.{◌≡◌, ◌≤◌, ◌+◌, ◌++◌, ◌<◌, ◌^◌, IfOk, OnOk, length, map};
ghost use Rattle.std.specs.List.{AllByRecursion};
ghost use Rattle.format_event.specs.Leaf.{event_bytes};
ghost use Rattle.spec_model.specs.Changes.{changed, changed_all};
ghost use Rattle.spec_model.specs.Runs.{MadeBefore};
ghost use Rattle.store_catalog.specs.Rows.{start_as, starts_of, IsRow};

use base_types::{Blob, Items, Memory, TableId, TxId};
use format_event::EventRef;
use sql_types::{Change, EventId};
use std::alloc::Global;
use store_table::{VersionStore, leaf_of};

/// Starts of rows in a table, and the leaves of these events.
#[derive(Drop)]
pub(crate) struct NewRows {
    pub starts: Items<Change>,
    pub leaves: Items<Blob>,
}

/// Rows that start as the events from `seq` on. Numbers of 2^63 and above are more than there is memory for.
pub(crate) fn new_rows(
    alloc: Global,
    table: TableId,
    tx: TxId,
    seq: u64,
    starts: Items<Change>,
) -> Result<NewRows, Memory>
    requires { AllByRecursion IsRow starts }
    ensures starts { IfOk result (λ rows. rows.starts ≡ starts) }
    ensures leaves { IfOk result (λ rows. rows.leaves ≡ map event_bytes (starts_of table tx seq starts)) }
    ensures room { OnOk result (seq + length starts < 2 ^ 63) }
{
    have_numbers(seq, starts.len())?;
    let leaves = leaves_of(alloc, table, tx, seq, starts.as_slice())?;
    Ok(NewRows { starts, leaves })
}

fn have_numbers(seq: u64, count: usize) -> Result<(), Memory>
    ensures { OnOk result (seq + count < 2 ^ 63) }
{
    match seq.checked_add(count as u64) {
        Some(next) if next < 1 << 63 => Ok(()),
        _ => Err(Memory),
    }
}

/// The leaves of the starts among changes of a table that are numbered from `seq` on.
fn leaves_of(
    alloc: Global,
    table: TableId,
    tx: TxId,
    seq: u64,
    changes: &[Change],
) -> Result<Items<Blob>, Memory>
    requires rows { AllByRecursion IsRow changes.now }
    requires room { seq + length changes.now < 2 ^ 63 }
    ensures { IfOk result (λ leaves. leaves ≡ map event_bytes (starts_of table tx seq changes.now)) }
{
    let mut leaves = Vec::with_capacity(alloc, changes.len())?;
    let mut number = seq;
    for change in changes {
        let id = EventId { tx, seq: number };
        add_leaf(alloc, table, id, change, &mut leaves)?;
        number += 1;
    }
    Ok(Items::from_vec(leaves))
}

fn add_leaf(
    alloc: Global,
    table: TableId,
    id: EventId,
    change: &Change,
    leaves: &mut Vec<Blob>,
) -> Result<(), Memory>
    requires { IsRow change.now }
    ensures { OnOk result
        (leaves.new.items ≡ leaves.old.items ++ map event_bytes (start_as table id change.now)) }
{
    if let Change::Starts(values) = change {
        let start = EventRef {
            id,
            ends: None,
            values: values.as_slice(),
            table,
        };
        leaves.push(leaf_of(alloc, &start)?)?;
    }
    Ok(())
}

/// Carries out the changes, one after another, as the events of the transaction that have the numbers from
/// `seq` on. Each finds its place by halving. Takes no memory.
pub(crate) fn carry_out(rows: &mut VersionStore, tx: TxId, seq: u64, changes: Items<Change>)
    requires room { length changes ≤ rows.old.room }
    requires before { AllByRecursion (MadeBefore tx seq) rows.old.stored.versions }
    requires numbers { seq + length changes < 2 ^ 63 }
    ensures { rows.new.stored.versions ≡ changed_all tx seq changes rows.old.stored.versions }
{
    let mut number = seq;
    for change in changes.into_vec() {
        carry_out_one(rows, EventId { tx, seq: number }, change);
        number += 1;
    }
}

fn carry_out_one(rows: &mut VersionStore, at: EventId, change: Change)
    requires room { 1 ≤ rows.old.room }
    requires before { AllByRecursion (MadeBefore at.0 at.1) rows.old.stored.versions }
    ensures versions { rows.new.stored.versions ≡ changed at change rows.old.stored.versions }
    ensures room { rows.old.room ≤ rows.new.room + 1 }
{
    match change {
        Change::Starts(values) => rows.start(at, values),
        Change::Ends(start) => rows.end(at, start),
    }
}
