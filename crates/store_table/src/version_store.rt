//! The versions of a table, with their key order and their indexes.

ghost use Rattle.std.specs.Prelude.{◌≡◌, ◌≤◌, ◌<◌, ◌+◌, ◌^◌, ◌⊎◌, [], List, None, Some, IfOk, OnOk, OnErr, IfSome, IfNone, length, map};
ghost use Rattle.std.specs.Prelude.{get_or, slice_get, slice_range, slice_set};
ghost use Rattle.std.specs.List.{AllByRecursion, HoldsAt, remove};
ghost use Rattle.sql_types.specs.declared.version.Version.{Version as SpecVersion};
ghost use Rattle.sql_value.specs.declared.column.ColumnDef.{ColumnDef as SpecColumn};
ghost use Rattle.spec_model.specs.Changes.{changed, changed_all};
ghost use Rattle.spec_model.specs.Limits.{max_columns};
ghost use Rattle.format_event.specs.Leaf.{event_bytes};
ghost use Rattle.store_table.specs.Made.{IsMade, events_made};
ghost use Rattle.spec_model.specs.Keys as keys;
ghost use Rattle.spec_model.specs.Rows.{EventId as SpecEventId, ended, started, with_end};
ghost use Rattle.spec_model.specs.Runs.{MadeBefore, Rising};
ghost use Rattle.spec_model.specs.Undo.{versions_undone};
ghost use Rattle.store_table.specs.Orders as orders;
ghost use Rattle.store_table.specs.Stored.{Index as SpecIndex, rows_below, with_index, with_versions, without_last_index};
ghost use Rattle.store_table.specs.Undoing.{EndsUndone, NoEndUndone, NoStartUndone, StartsUndone, without_end};

use crate::building::new_index;
use crate::by_key::{key_exists, key_range};
use crate::ending::{Ending, add_ending, last_ending};
use crate::index::{Index, rows_below};
use crate::leaves::leaves_of;
use crate::orders::{Orders, add_live, reserve_orders, take_version};
use crate::reading::{OrderRange, versions_of};
use crate::searching::{last_start, place_of_start, version_at};
use base_types::{Blob, Items, Memory, TableId, TxId};
use sql_parts::key_places;
use sql_types::{Change, EventId, Key, Row, TypedValue, Version};
use sql_value::ColumnDef;
use std::alloc::Global;
use std::marker::Model;
use store_order::Starts;

/// The versions of a table by rising start, their key order, and their indexes, which follow the versions.
/// Contracts see them as lists, and the room that is reserved.
#[derive(Drop)]
pub struct VersionStore {
    // The places of the key's columns, where there are versions.
    pub(crate) key: Vec<usize>,
    pub(crate) versions: Vec<Version>,
    pub(crate) orders: Orders,
    // So many more versions may start.
    pub(crate) room: usize,
    pub(crate) alloc: Global,
}

impl Model for VersionStore {
    ghost use Rattle.store_table.specs.Stored.{ReservedTable};

    ghost Value = { ReservedTable };

    ghost use Rattle.std.specs.Prelude.{◌+◌, ◌≤◌, map, length, vec_capacity};
    ghost use Rattle.store_table.specs.Kept.{index_seen, IsKept, HaveCapacity};

    ghost view = { λ s. record {
      stored = record {
        key = s.key.items;
        versions = s.versions.items;
        order = s.orders.key_order.order.list;
        indexes = map index_seen s.orders.indexes.items;
      };
      room = s.room;
    } };

    ghost invariant = { λ s. IsKept s.key.items s.versions.items s.orders
        × (length s.versions.items + s.room ≤ vec_capacity s.versions)
        × HaveCapacity (length s.versions.items + s.room) s.orders };
}

impl VersionStore {
    /// A table without versions and indexes, and without room. Takes no memory.
    pub fn new(alloc: Global) -> VersionStore
        ensures { result ≡ record {
          stored = record { key = []; versions = []; order = []; indexes = [] };
          room = 0;
        } }
    {
        VersionStore {
            key: Vec::new(alloc),
            versions: Vec::new(alloc),
            orders: Orders {
                key_order: Index {
                    ordinals: Items::new(alloc),
                    order: Starts::new(alloc),
                },
                ends: Vec::new(alloc),
                indexes: Vec::new(alloc),
            },
            room: 0,
            alloc,
        }
    }

    /// The versions, by rising start.
    pub fn versions(&self) -> &[Version]
        ensures { result.now ≡ self.now.stored.versions }
    {
        &self.versions
    }

    /// The key of the table is that of these columns, where there are no versions yet. Where there are it has
    /// to be the same. For want of memory nothing changes.
    pub fn set_key(&mut self, alloc: Global, columns: &[ColumnDef]) -> Result<(), Memory>
        requires { (self.old.stored.versions ≡ []) ⊎ (self.old.stored.key ≡ keys.key_places columns.now) }
        ensures ok { OnOk result (self.new.stored
            ≡ with_versions (keys.key_places columns.now) self.old.stored.versions self.old.stored) }
        ensures room { self.new.room ≡ self.old.room }
        ensures err { OnErr result (self.new ≡ self.old) }
    {
        if self.versions.len() > 0 {
            return Ok(());
        }
        self.key = key_places(alloc, columns)?;
        Ok(())
    }

    /// Makes room for so many more starts, in all that is kept. For want of memory nothing changes.
    pub fn reserve(&mut self, count: usize) -> Result<(), Memory>
        ensures ok { OnOk result (self.new ≡ record { stored = self.old.stored; room = count }) }
        ensures err { OnErr result (self.new ≡ self.old) }
    {
        self.versions.reserve(count)?;
        reserve_orders(self.alloc, &mut self.orders, self.versions.len() + count)?;
        self.room = count;
        Ok(())
    }

    /// Starts a version in the room that is reserved. It finds the place of the version among the versions by
    /// a guess and halving, and in the key order and in each index by halving. It moves the versions that
    /// stand behind, and in an order not all that do. Takes no memory.
    pub fn start(&mut self, at: EventId, values: Items<Option<TypedValue>>)
        requires room { 1 ≤ self.old.room }
        requires before { AllByRecursion (MadeBefore at.0 at.1) self.old.stored.versions }
        ensures stored { self.new.stored
            ≡ with_versions self.old.stored.key (started at values self.old.stored.versions)
            self.old.stored }
        ensures room { self.new.room + 1 ≡ self.old.room }
    {
        let version = Version {
            values,
            start: at,
            end: None,
        };
        add_live(&mut self.orders, &self.key, &self.versions, &version);
        let place = place_of_start(&self.versions, at);
        self.versions.insert(place, version).unwrap();
        self.room -= 1;
    }

    /// Ends the version that the event `start` started; where there is none nothing changes. It finds the
    /// version by a guess and halving, and its places in the key order and in each index, and that of its end,
    /// by halving. Takes no memory.
    pub fn end(&mut self, at: EventId, start: EventId)
        ensures stored { self.new.stored
            ≡ with_versions self.old.stored.key (ended at start self.old.stored.versions)
            self.old.stored }
        ensures room { self.new.room ≡ self.old.room }
    {
        let place = place_of_start(&self.versions, start);
        if place < self.versions.len() && self.versions[place].start == start {
            self.end_at(place, at);
        }
    }

    // Ends the version at this place.
    fn end_at(&mut self, place: usize, at: EventId)
        requires { place < length self.old.stored.versions }
        ensures stored { (d : SpecVersion) → self.new.stored ≡ with_versions self.old.stored.key
            (slice_set self.old.stored.versions place (with_end at (get_or self.old.stored.versions place d)))
            self.old.stored }
        ensures room { self.new.room ≡ self.old.room }
    {
        let start = self.versions[place].start;
        take_version(&mut self.orders, &self.key, &self.versions, place);
        add_ending(&mut self.orders.ends, Ending { end: at, start });
        self.versions[place].end = Some(at);
    }

    /// Takes back the starts and ends of the transaction that have the number `seq` or above. It finds them
    /// by halving, one after another from the last one on, and looks at no other version. Takes no memory.
    pub fn undo(&mut self, tx: TxId, seq: u64)
        ensures stored { self.new.stored ≡ with_versions self.old.stored.key
            (versions_undone tx seq self.old.stored.versions) self.old.stored }
        ensures room { self.new.room ≡ self.old.room }
    {
        self.undo_ends(tx, seq);
        self.undo_starts(tx, seq);
    }

    fn undo_ends(&mut self, tx: TxId, seq: u64)
        ensures stored { self.new.stored
            ≡ with_versions self.old.stored.key self.new.stored.versions self.old.stored }
        ensures left { versions_undone tx seq self.new.stored.versions
            ≡ versions_undone tx seq self.old.stored.versions }
        ensures none { NoEndUndone tx seq self.new.stored.versions }
        ensures room { self.new.room ≡ self.old.room }
    {
        self.orders_follow();
        while let Some(place) = self.last_ended(tx, seq) {
            self.reopen(place);
        }
    }

    fn undo_starts(&mut self, tx: TxId, seq: u64)
        requires { NoEndUndone tx seq self.old.stored.versions }
        ensures stored { self.new.stored ≡ with_versions self.old.stored.key
            (versions_undone tx seq self.old.stored.versions) self.old.stored }
        ensures room { self.new.room ≡ self.old.room }
    {
        self.orders_follow();
        while let Some(place) = self.last_started(tx, seq) {
            self.withdraw(place);
        }
    }

    /// Key order and indexes follow the versions.
    pub fn orders_follow(&self)
        ensures { self.now.stored
            ≡ with_versions self.now.stored.key self.now.stored.versions self.now.stored }
    {
        let _ = &self.key;
    }

    /// The versions rise by their starts.
    pub fn versions_rise(&self)
        ensures { Rising self.now.stored.versions }
    {
        let _ = &self.versions;
    }

    // Where the version stands whose end is the last one that the transaction made, where that is undone.
    fn last_ended(&self, tx: TxId, seq: u64) -> Option<usize>
        ensures some { IfSome result (EndsUndone tx seq self.now.stored.versions) }
        ensures none { IfNone result (NoEndUndone tx seq self.now.stored.versions) }
    {
        match last_ending(&self.orders.ends, tx, seq) {
            Some(ending) => Some(place_of_start(&self.versions, ending.start)),
            None => None,
        }
    }

    // Where the last version stands that the transaction started, where that is undone.
    fn last_started(&self, tx: TxId, seq: u64) -> Option<usize>
        ensures some { IfSome result (StartsUndone tx seq self.now.stored.versions) }
        ensures none { IfNone result (NoStartUndone tx seq self.now.stored.versions) }
    {
        last_start(&self.versions, tx, seq)
    }

    // Takes back the end of the version at this place.
    fn reopen(&mut self, place: usize)
        requires within { place < length self.old.stored.versions }
        requires ended { (end : SpecEventId)
            × HoldsAt (λ v. v.end ≡ Some end) self.old.stored.versions place }
        ensures stored { (d : SpecVersion) → self.new.stored ≡ with_versions self.old.stored.key
            (slice_set self.old.stored.versions place (without_end (get_or self.old.stored.versions place d)))
            self.old.stored }
        ensures room { self.new.room ≡ self.old.room }
    {
        take_version(&mut self.orders, &self.key, &self.versions, place);
        add_live(
            &mut self.orders,
            &self.key,
            &self.versions,
            &self.versions[place],
        );
        self.versions[place].end = None;
    }

    // Takes back the start of the version at this place.
    fn withdraw(&mut self, place: usize)
        requires { place < length self.old.stored.versions }
        ensures stored { self.new.stored ≡ with_versions self.old.stored.key
            (remove self.old.stored.versions place) self.old.stored }
        ensures room { self.new.room ≡ self.old.room }
    {
        take_version(&mut self.orders, &self.key, &self.versions, place);
        self.versions.remove(place);
    }

    /// Adds an index of the columns with these ordinals, with room for all versions. No other change sorts.
    /// For want of memory nothing changes.
    pub fn add_index(&mut self, alloc: Global, ordinals: &[u16]) -> Result<(), Memory>
        ensures ok { OnOk result (self.new.stored ≡ with_index ordinals.now self.old.stored) }
        ensures room { self.new.room ≡ self.old.room }
        ensures err { OnErr result (self.new ≡ self.old) }
    {
        let room = self.versions.len() + self.room;
        let index = new_index(alloc, ordinals, &self.key, &self.versions, room)?;
        self.orders.indexes.push(index)?;
        Ok(())
    }

    /// Drops the last index, if there is one. Takes no memory.
    pub fn drop_index(&mut self)
        ensures stored { self.new.stored ≡ without_last_index self.old.stored }
        ensures room { self.new.room ≡ self.old.room }
    {
        self.orders.indexes.pop();
    }

    /// How many indexes there are.
    pub fn indexes(&self) -> usize
        ensures { result ≡ length self.now.stored.indexes }
    {
        self.orders.indexes.len()
    }

    /// Carries out the changes, one after another, as the events of the transaction that have the numbers from
    /// `seq` on, in the room that is reserved. Takes no memory.
    #[tactic(auto, using(crate::proofs::Carrying::carrying_first, crate::proofs::Carrying::carrying_one, crate::proofs::Carrying::carried, crate::proofs::Carrying::room_left, crate::proofs::Carrying::some_room, crate::proofs::Carrying::some_number))]
    pub fn carry_out(&mut self, tx: TxId, seq: u64, changes: Items<Change>)
        requires room { length changes ≤ self.old.room }
        requires numbers { seq + length changes < 2 ^ 64 }
        requires before { AllByRecursion (MadeBefore tx seq) self.old.stored.versions }
        ensures stored { self.new.stored ≡ with_versions self.old.stored.key
            (changed_all tx seq changes self.old.stored.versions) self.old.stored }
        ensures room { self.old.room ≤ self.new.room + length changes }
    {
        self.orders_follow();
        let mut number = seq;
        for change in changes.into_vec() {
            self.carry_out_one(EventId { tx, seq: number }, change);
            number += 1;
        }
    }

    fn carry_out_one(&mut self, at: EventId, change: Change)
        requires room { 1 ≤ self.old.room }
        requires before { AllByRecursion (MadeBefore at.0 at.1) self.old.stored.versions }
        ensures stored { self.new.stored ≡ with_versions self.old.stored.key
            (changed at change self.old.stored.versions) self.old.stored }
        ensures room { self.old.room ≤ self.new.room + 1 }
    {
        match change {
            Change::Starts(values) => self.start(at, values),
            Change::Ends(start) => self.end(at, start),
        }
    }

    /// The leaves of the changes, one after another, as the events of the transaction that have the numbers
    /// from `seq` on.
    pub fn leaves_of(
        &self,
        alloc: Global,
        table: TableId,
        tx: TxId,
        seq: u64,
        changes: &[Change],
    ) -> Result<Vec<Blob>, Memory>
        requires made { (columns : List SpecColumn) × (length columns ≤ max_columns)
            × AllByRecursion (IsMade columns self.now.stored.versions) changes.now }
        requires room { seq + length changes.now < 2 ^ 64 }
        ensures { IfOk result (λ leaves. leaves.items
            ≡ map event_bytes (events_made table tx seq changes.now self.now.stored.versions)) }
    {
        leaves_of(alloc, table, tx, seq, changes, &self.versions)
    }

    /// Whether a version with the key of the row stands, by halving.
    pub fn has_key_of_row(&self, row: &Row) -> bool
        ensures { result ≡ keys.has_live_row_at self.now.stored.key (keys.key_at self.now.stored.key row.now)
            self.now.stored.versions }
    {
        key_exists(&self.key, &self.versions, &self.orders.key_order.order, row)
    }

    /// The versions that stand, in key order: those of one key, or all. The place of the key is found by
    /// halving, each version by a guess and halving, and none is copied.
    pub fn live_by_key(&self, alloc: Global, key: &Option<Key>) -> Result<Vec<&Version>, Memory>
        ensures { IfOk result (λ found. map (λ v. v.now) found.items
            ≡ keys.live_by_key_at self.now.stored.key key.now self.now.stored.versions) }
    {
        let stretch = self.live_stretch(key);
        let order = &self.orders.key_order.order;
        let found = versions_of(alloc, &self.versions, order, stretch)?;
        Ok(found)
    }

    // Where their starts stand in the key order.
    fn live_stretch(&self, key: &Option<Key>) -> OrderRange
        ensures { slice_range self.now.stored.order result.first result.behind ≡ orders.starts_of
            (keys.live_by_key_at self.now.stored.key key.now self.now.stored.versions) }
    {
        let order = &self.orders.key_order.order;
        match key {
            None => OrderRange {
                first: 0,
                behind: order.len(),
            },
            Some(key) => key_range(&self.key, &self.versions, order, key.as_slice()),
        }
    }

    /// How many rows the index with this number, from 0, has below that of the version which this event
    /// started. By halving, and takes no memory.
    pub fn index_place(&self, index: usize, start: EventId) -> usize
        requires index { index < length self.now.stored.indexes }
        requires version { (v : SpecVersion) × (orders.version_at start self.now.stored.versions ≡ Some v) }
        ensures { (i : SpecIndex) (v : SpecVersion) → slice_get self.now.stored.indexes index ≡ Some i
            → orders.version_at start self.now.stored.versions ≡ Some v
            → result ≡ rows_below self.now.stored.key i.ordinals v self.now.stored.versions }
    {
        let version = version_at(&self.versions, start).unwrap();
        rows_below(
            &self.orders.indexes[index],
            &self.key,
            &self.versions,
            version,
        )
    }
}
