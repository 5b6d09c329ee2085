//! Undo by number.

ghost use Rattle.std.specs.Prelude.{◌≡◌, not};
ghost use Rattle.spec_model.specs.Catalog.{with_versions};
ghost use Rattle.spec_model.specs.Undo.{end_left, end_undone, is_undone, undone, versions_undone};

use base_types::{Items, TxId};
use sql_types::{EventId, Table, Version};
use std::alloc::Global;
use std::mem;

/// Takes back the starts and ends of the transaction that have the number `seq` or above, in all tables.
/// Looks at each version once, and takes no memory.
#[tactic(auto, unfolding(spec_model::specs::Undo::undone))]
pub fn undo(alloc: Global, tables: &mut Vec<Table>, tx: TxId, seq: u64)
    ensures { tables.new.items ≡ undone tx seq tables.old.items }
{
    for table in tables.iter_mut() {
        undo_table(alloc, table, tx, seq);
    }
}

fn undo_table(alloc: Global, table: &mut Table, tx: TxId, seq: u64)
    ensures { table.new ≡ with_versions (versions_undone tx seq) table.old }
{
    let mut versions = mem::replace(&mut table.versions, Items::new(alloc)).into_vec();
    undo_versions(&mut versions, tx, seq);
    table.versions = Items::from_vec(versions);
}

fn undo_versions(versions: &mut Vec<Version>, tx: TxId, seq: u64)
    ensures { versions.new.items ≡ versions_undone tx seq versions.old.items }
{
    let keep = |version: &mut Version| -> bool
        ensures { (result ≡ not (is_undone tx seq version.entry.now.start))
            × (version.exit.now ≡ end_undone tx seq version.entry.now) }
    {
        version.end = end_left(version.end, tx, seq);
        !is_undone(version.start, tx, seq)
    };
    versions.retain_mut(keep);
}

fn end_left(end: Option<EventId>, tx: TxId, seq: u64) -> Option<EventId>
    ensures { result ≡ end_left tx seq end }
{
    match end {
        Some(event) if is_undone(event, tx, seq) => None,
        _ => end,
    }
}

fn is_undone(event: EventId, tx: TxId, seq: u64) -> bool
    ensures { result ≡ is_undone tx seq event }
{
    event.tx == tx && seq <= event.seq
}
