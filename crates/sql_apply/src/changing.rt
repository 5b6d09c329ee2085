//! Changes carried out as the events of a transaction.

ghost use Rattle.std.specs.Prelude.{◌≡◌, ◌≤◌, ◌+◌, ◌<◌, ◌^◌, OnOk, length, map};
ghost use Rattle.std.specs.List.{AllByRecursion};
ghost use Rattle.spec_model.specs.Catalog.{changed_table, with_versions};
ghost use Rattle.spec_model.specs.Changes.{changed, changed_all};
ghost use Rattle.spec_model.specs.Rows.{ended, started};
ghost use Rattle.spec_model.specs.Runs.{MadeBefore, Rising, Sound, SoundTable};
ghost use Rattle.sql_apply.specs.Places.{place, starts_before};

use base_types::{Items, Memory, TableId, TxId};
use sql_types::{Change, EventId, Table, TypedValue, Version};
use std::alloc::Global;
use std::mem;

/// Carries out the changes in the table with this id, one after another, as the events of the transaction
/// that have the numbers from `seq` on. Where no table has the id nothing is changed. After the only error,
/// want of memory, the tables may have some of the changes. Each change finds its place by halving, and a
/// start behind all others moves none of them.
pub fn change_table(
    alloc: Global,
    tables: &mut Vec<Table>,
    id: TableId,
    tx: TxId,
    seq: u64,
    changes: Items<Change>,
) -> Result<(), Memory>
    requires sound { Sound tx seq tables.old.items }
    requires room { seq + length changes < 2 ^ 64 }
    ensures { OnOk result (tables.new.items
        ≡ changed_table id (changed_all tx seq changes) tables.old.items) }
{
    // the first table has the id 1, the next 2, and so on
    let id = id as usize;
    if id == 0 || tables.len() < id {
        return Ok(());
    }
    change_versions(alloc, &mut tables[id - 1], tx, seq, changes)
}

fn change_versions(
    alloc: Global,
    table: &mut Table,
    tx: TxId,
    seq: u64,
    changes: Items<Change>,
) -> Result<(), Memory>
    requires sound { SoundTable tx seq table.old }
    requires room { seq + length changes < 2 ^ 64 }
    ensures { OnOk result (table.new ≡ with_versions (changed_all tx seq changes) table.old) }
{
    let mut versions = mem::replace(&mut table.versions, Items::new(alloc)).into_vec();
    let carried_out = carry_out(tx, seq, changes, &mut versions);
    table.versions = Items::from_vec(versions);
    carried_out
}

fn carry_out(
    tx: TxId,
    seq: u64,
    changes: Items<Change>,
    versions: &mut Vec<Version>,
) -> Result<(), Memory>
    requires rising { Rising versions.old.items }
    requires before { AllByRecursion (MadeBefore tx seq) versions.old.items }
    requires room { seq + length changes < 2 ^ 64 }
    ensures { OnOk result (versions.new.items ≡ changed_all tx seq changes versions.old.items) }
{
    let mut number = seq;
    for change in changes.into_vec() {
        let at = EventId { tx, seq: number };
        carry_out_one(at, change, versions)?;
        number += 1;
    }
    Ok(())
}

fn carry_out_one(at: EventId, change: Change, versions: &mut Vec<Version>) -> Result<(), Memory>
    requires { Rising versions.old.items }
    ensures { OnOk result (versions.new.items ≡ changed at change versions.old.items) }
{
    match change {
        Change::Starts(values) => start_version(at, values, versions),
        Change::Ends(start) => {
            end_version(at, start, versions);
            Ok(())
        }
    }
}

#[tactic(auto, using(crate::proofs::Places::started_at), unfolding(spec_model::specs::Rows::started))]
fn start_version(
    at: EventId,
    values: Items<Option<TypedValue>>,
    versions: &mut Vec<Version>,
) -> Result<(), Memory>
    requires { Rising versions.old.items }
    ensures { OnOk result (versions.new.items ≡ started at values versions.old.items) }
{
    let version = Version {
        values,
        start: at,
        end: None,
    };
    versions.insert(place_of(versions, at), version)?;
    Ok(())
}

fn end_version(at: EventId, start: EventId, versions: &mut Vec<Version>)
    requires { Rising versions.old.items }
    ensures { versions.new.items ≡ ended at start versions.old.items }
{
    let place = place_of(versions, start);
    if place < versions.len() && versions[place].start == start {
        versions[place].end = Some(at);
    }
}

// Where the version stands that the event started, or would stand, by halving.
fn place_of(versions: &[Version], at: EventId) -> usize
    requires { Rising versions.now }
    ensures value { result ≡ place at versions.now }
    ensures bound { result ≤ length versions.now }
{
    versions.partition_point(|version| starts_before(version, at))
}

fn starts_before(version: &Version, at: EventId) -> bool
    ensures { result ≡ starts_before at version.now }
{
    version.start < at
}
