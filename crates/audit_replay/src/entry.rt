//! The entry of a transaction.

ghost use Rattle.std.specs.Prelude.{ℕ, ◌≡◌, ◌==◌, ◌<◌, ◌^◌, ◌++◌, ◌∷◌, [], IfOk, OnOk, List, length, map};
ghost use Rattle.std.specs.List.{AllByRecursion};
ghost use Rattle.format_event.specs.Leaf.{HasLeaf, event_bytes};
ghost use Rattle.base_merkle.specs.Holds.{Holds, MayAddLeaf};
ghost use Rattle.base_merkle.specs.TreeHash.{tree_hash};
ghost use Rattle.sql_apply.specs.Short.{AreShort};
ghost use Rattle.spec_ledger.specs.Entries as spec;
ghost use Rattle.audit_replay.specs.Reached.{HaveLeaves};

use base_merkle::{Frontier, Hash32};
use base_types::{Hash, Items, Memory, Name, TableId, TxId};
use format_event::write_event;
use law_events::have_room;
use sql_apply::events_of;
use sql_types::{Event, Table, TxEntry};
use std::alloc::Global;

/// The entry of a transaction that led to these tables; its place is 0 in block 0.
pub(crate) fn entry_of<H: Hash32>(
    alloc: Global,
    h: H,
    tables: &[Table],
    id: TxId,
    session: &Name,
    time: u64,
) -> Result<TxEntry, Memory>
    requires short { AreShort tables.now }
    requires leaves { HaveLeaves id tables.now }
    ensures { IfOk result (λ entry. entry ≡ spec.entry_of (H.digest h) tables.now id session.now time) }
{
    Ok(TxEntry {
        id,
        block: 0,
        ordinal: 0,
        time,
        principal: session.copy()?,
        roots: roots_of(alloc, h, id, tables)?,
    })
}

/// For each table with an event of the transaction, the root over these events.
#[tactic(auto, unfolding(spec_ledger::specs::Entries::roots_of))]
fn roots_of<H: Hash32>(
    alloc: Global,
    h: H,
    id: TxId,
    tables: &[Table],
) -> Result<Items<(TableId, Hash)>, Memory>
    requires short { AreShort tables.now }
    requires leaves { HaveLeaves id tables.now }
    ensures { IfOk result (λ roots. roots ≡ spec.roots_of (H.digest h) id tables.now) }
{
    let mut roots = Vec::new(alloc);
    for table in tables {
        add_root(alloc, h, id, table, &mut roots)?;
    }
    Ok(Items::from_vec(roots))
}

/// Adds the root over the transaction's events in a table, where it has some.
fn add_root<H: Hash32>(
    alloc: Global,
    h: H,
    id: TxId,
    table: &Table,
    roots: &mut Vec<(TableId, Hash)>,
) -> Result<(), Memory>
    requires short { AreShort (table.now ∷ []) }
    requires leaves { HaveLeaves id (table.now ∷ []) }
    ensures { OnOk result (roots.new.items
        ≡ roots.old.items ++ spec.roots_of (H.digest h) id (table.now ∷ [])) }
{
    let events = events_of(alloc, id, table)?;
    if has_none(&events) {
        return Ok(());
    }
    have_room(&events);
    roots.push((table.def.id, root_of(alloc, h, &events)?))?;
    Ok(())
}

fn has_none(events: &[Event]) -> bool
    ensures { result ≡ (length events.now == 0) }
{
    events.is_empty()
}

/// Adds the leaf of an event to the tree. The buffer has the leaf then, whatever it had before.
fn push_event<H: Hash32>(
    tree: &mut Frontier<H>,
    leaf: &mut Vec<u8>,
    event: &Event,
) -> Result<(), Memory>
    requires leaf { HasLeaf event.now }
    requires room { MayAddLeaf H.digest tree.old }
    ensures { OnOk result ((h : H) (leaves : List (List ℕ)) → Holds H.digest h tree.old leaves
        → Holds H.digest h tree.new (leaves ++ event_bytes event.now ∷ [])) }
{
    leaf.clear();
    write_event(event, leaf)?;
    tree.push_leaf(leaf);
    Ok(())
}

/// The tree hash over the leaves of the events.
fn root_of<H: Hash32>(alloc: Global, h: H, events: &[Event]) -> Result<Hash, Memory>
    requires leaves { AllByRecursion HasLeaf events.now }
    requires few { length events.now < 2 ^ 63 }
    ensures { IfOk result (λ root. root ≡ tree_hash (H.digest h) (map event_bytes events.now)) }
{
    let mut tree = Frontier::new(h);
    let mut leaf = Vec::new(alloc);
    for event in events {
        push_event(&mut tree, &mut leaf, event)?;
    }
    Ok(tree.root())
}
