//! The cell of a table.

ghost use Rattle.std.specs.Prelude.{◌≡◌, ◌≤◌, ◌<◌, ◌∷◌, [], IfErr, IfOk, Ok, OnErr, OnOk, Some, length};
ghost use Rattle.sql_types.specs.declared.version.Version.{Version as SpecVersion};
ghost use Rattle.spec_model.specs.Checks.{row_statement_check};
ghost use Rattle.spec_protocol.specs.Seats.{OpenTransaction};
ghost use Rattle.spec_protocol.specs.TableVisits.{with_indexes};
ghost use Rattle.spec_protocol.specs.UndoVisits.{index_dropped, undone_to, unlocked};
ghost use Rattle.store_tx.specs.Represents.{Represents};
ghost use Rattle.store_table.specs.Calls.{HasFit, IsLeft, IsPlace, IsStopped, IsTable, LacksLast, LocksTaken, MayChange, NoneChanged, NoneRead, RowsChanged, RowsRead};
ghost use Rattle.store_table.specs.Orders.{version_at};

use crate::showing::read_rows;
use crate::stop::{TableErr, granted_or_err};
use crate::version_store::VersionStore;
use crate::writing::change_rows;
use base_merkle::Hash32;
use base_types::{Items, Memory, TableId, TxId};
use sql_parts::KeyedTable;
use sql_types::{EventId, Part, Row, RowStmt, Select, TableDef, Version};
use sql_value::Refusal;
use std::alloc::Global;
use std::marker::Model;
use store_locks::{LockList, LockRequest};
use store_tx::TxCtx;

/// The versions of a table with their key order and indexes, and the locks on its rows. Contracts see the
/// cell of which the laws on visits speak.
#[derive(Drop)]
pub struct TableCell {
    pub(crate) store: VersionStore,
    pub(crate) locks: LockList,
    pub(crate) id: TableId,
}

impl Model for TableCell {
    ghost use Rattle.spec_protocol.specs.Cells.{TableCell};

    ghost Value = { TableCell };

    ghost view = { λ c. record {
      id = c.id;
      key = c.store.stored.key;
      versions = c.store.stored.versions;
      order = c.store.stored.order;
      indexes = c.store.stored.indexes;
      holds = c.locks;
    } };
}

impl TableCell {
    /// The cell of the table with this id, without versions, indexes and locks. Takes no memory.
    pub fn new(alloc: Global, id: TableId) -> TableCell
        ensures { result ≡ record {
          id = id;
          key = [];
          versions = [];
          order = [];
          indexes = [];
          holds = [];
        } }
    {
        TableCell {
            store: VersionStore::new(alloc),
            locks: LockList::new(alloc),
            id,
        }
    }

    /// The id of its table.
    pub fn id(&self) -> TableId
        ensures { result ≡ self.now.id }
    {
        self.id
    }

    /// Its versions, by rising start.
    pub fn versions(&self) -> &[Version]
        ensures { result.now ≡ self.now.versions }
    {
        self.store.versions()
    }

    /// INSERT, UPDATE or DELETE, which passes all that is checked before any row: the transaction takes all
    /// that it wants, each row is changed, and the context gets the leaves of the starts and ends; the answer
    /// is the number of rows. Or no row is changed: `Refused` by the first refusal of the rows, and then the
    /// locks stay; `Locked` with the least holder for the first want that is barred, or `Memory`, and then
    /// the cell is as it was. The context is then of the same transaction as before.
    ///
    /// INSERT looks each row's key up by halving; UPDATE and DELETE look at the row of the key that the
    /// condition fixes, or at all that stand. Each change finds its version by a guess and halving, and its
    /// place in each order by halving.
    #[tactic(auto, using(crate::proofs::Whole::changed_under, crate::proofs::Asking::left, crate::proofs::Asking::stopped_so, crate::proofs::Asking::fewer))]
    pub fn change<H: Hash32>(
        &mut self,
        alloc: Global,
        ctx: &mut TxCtx<H>,
        table: &KeyedTable,
        stmt: &RowStmt,
        requests: &[LockRequest],
    ) -> Result<u64, TableErr>
        requires table { IsTable self.old table.now }
        requires fit { HasFit self.old table.now }
        requires passes { row_statement_check (table.now ∷ []) stmt.now ≡ Ok table.now }
        requires before { MayChange H.digest ctx.old self.old.versions }
        ensures ok { IfOk result (λ count.
            RowsChanged H.digest self.old ctx.old table.now stmt.now requests.now count self.new ctx.new) }
        ensures stopped { IfErr result (λ stop.
            NoneChanged H.digest self.old ctx.old table.now stmt.now requests.now stop self.new) }
        ensures context { OnErr result ((h : H) (o : OpenTransaction) → Represents H.digest h ctx.old o
            → Represents H.digest h ctx.new o) }
    {
        let held = self.held();
        self.lock(ctx.id(), requests)?;
        match change_rows(alloc, &mut self.store, ctx, table, stmt) {
            Ok(count) => Ok(count),
            Err(refusal) => Err(self.stop(held, refusal)),
        }
    }

    // How many locks there are.
    fn held(&self) -> u64
        ensures { result ≡ length self.now.holds }
    {
        self.locks.holds()
    }

    // Takes all that the transaction wants, or nothing.
    fn lock(&mut self, tx: TxId, requests: &[LockRequest]) -> Result<(), TableErr>
        ensures ok { OnOk result (LocksTaken self.old tx requests.now self.new) }
        ensures err { IfErr result (λ stop. IsStopped self.old tx requests.now (λ e. ⊥) stop self.new) }
    {
        granted_or_err(self.locks.ask(tx, requests))
    }

    // How a refusal stops a statement: for want of memory its locks go, of which so many were there before.
    fn stop(&mut self, held: u64, refusal: Refusal) -> TableErr
        requires { held ≤ length self.old.holds }
        ensures { IsLeft self.old held refusal result self.new }
    {
        if refusal == Refusal::NoMemory {
            self.locks.back(held);
            TableErr::Memory
        } else {
            TableErr::Refused(refusal)
        }
    }

    /// SELECT on a part of the table: the transaction takes all that it wants, and the answer is the rows
    /// that are shown. Or none is: `Refused` by the first refusal of the rows, and then the locks stay;
    /// `Locked` with the least holder for the first want that is barred, or `Memory`, and then the cell is as
    /// it was.
    ///
    /// It looks at the row of the key that the condition fixes, or at all that stand, or at all versions.
    #[tactic(auto, using(crate::proofs::Asking::left, crate::proofs::Asking::stopped_so, crate::proofs::Asking::fewer))]
    pub fn read(
        &mut self,
        alloc: Global,
        tx: TxId,
        table: &KeyedTable,
        part: Part,
        q: &Select,
        requests: &[LockRequest],
    ) -> Result<Items<Row>, TableErr>
        requires { IsTable self.old table.now }
        ensures ok { IfOk result (λ rows. RowsRead self.old tx requests.now (table.now, part) q.now rows self.new) }
        ensures stopped { IfErr result (λ stop.
            NoneRead self.old tx requests.now (table.now, part) q.now stop self.new) }
    {
        let held = self.held();
        self.lock(tx, requests)?;
        match read_rows(alloc, &self.store, table, part, q) {
            Ok(rows) => Ok(rows),
            Err(refusal) => Err(self.stop(held, refusal)),
        }
    }

    /// Takes back the starts and ends of the transaction that have the number `seq` or above. Its locks stay.
    /// It finds them by halving, and looks at no other version. Takes no memory.
    pub fn undo_to(&mut self, tx: TxId, seq: u64)
        ensures { self.new ≡ undone_to tx seq self.old }
    {
        self.store.undo(tx, seq);
    }

    /// Takes back all that the transaction started and ended. Its locks stay. Takes no memory.
    pub fn undo(&mut self, tx: TxId)
        ensures { self.new ≡ undone_to tx 0 self.old }
    {
        self.undo_to(tx, 0);
    }

    /// Drops the locks of the transaction. Takes no memory.
    pub fn release(&mut self, tx: TxId)
        ensures { self.new ≡ unlocked tx self.old }
    {
        self.locks.release(tx);
    }

    /// Adds the last index of the definition, where the others are there. No other change sorts. For want of
    /// memory nothing changes.
    pub fn add_index(&mut self, alloc: Global, def: &TableDef) -> Result<(), Memory>
        requires table { IsTable self.old def.now }
        requires indexes { LacksLast self.old def.now }
        ensures ok { OnOk result (self.new ≡ with_indexes def.now self.old) }
        ensures err { OnErr result (self.new ≡ self.old) }
    {
        self.store.orders_follow();
        match def.indexes.as_slice().last() {
            Some(index) => self.store.add_index(alloc, index.ordinals.as_slice()),
            None => Ok(()),
        }
    }

    /// Drops the last index, where the cell has those of the definition, which is of this table. Takes no
    /// memory.
    pub fn drop_index(&mut self, def: &TableDef)
        ensures { self.new ≡ index_dropped (Some def.now) self.old }
    {
        if def.id == self.id && self.store.indexes() >= def.indexes.as_slice().len() {
            self.store.drop_index();
        }
    }

    /// How many rows the index with this number, from 0, has below that of the version which this event
    /// started. By halving, and takes no memory.
    pub fn index_place(&self, index: usize, start: EventId) -> usize
        requires index { index < length self.now.indexes }
        requires version { (v : SpecVersion) × (version_at start self.now.versions ≡ Some v) }
        ensures { IsPlace self.now index start result }
    {
        self.store.index_place(index, start)
    }
}
