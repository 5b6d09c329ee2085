//! The context of a running transaction.

ghost use Rattle.std.specs.Prelude.{◌≡◌, ◌<◌, ◌+◌, ◌∷◌, ◌⊎◌, [], List, ℕ, length, map};
ghost use Rattle.std.specs.Prelude.{Ok, Err, IfOk, OnOk, OnErr};
ghost use Rattle.sql_value.specs.declared.refusal.Refusal.TheVariants.{NoSuchSavepoint, LimitExceeded, NoMemory};
ghost use Rattle.spec_protocol.specs.Serial.{Differ};
ghost use Rattle.spec_model.specs.Limits.{max_savepoints};
ghost use Rattle.spec_protocol.specs.Answering.{savepoints_from};
ghost use Rattle.spec_protocol.specs.LedgerVisits.{is_read_only};
ghost use Rattle.spec_protocol.specs.Moves.{new_transaction, noting, with_undo_state};
ghost use Rattle.spec_protocol.specs.Seats.{OpenSavepoint, OpenTransaction};
ghost use Rattle.store_tx.specs.Leaves.{with_leaf, with_savepoint};
ghost use Rattle.store_tx.specs.Roots.{roots_of_trees};

use crate::roots::{have_no_leaf, roots_of};
use crate::savepoint::{Savepoint, kept_by};
use crate::tree::{TableTree, marks_of, open, push_leaf, restore_all};
use base_merkle::Hash32;
use base_types::{Hash, Items, Memory, Name, TableId, TxId};
use sql_value::Refusal;
use std::alloc::Global;

/// So many savepoints a transaction may have at one time.
const MOST_SAVEPOINTS: usize = 64;

/// What a running transaction has: its id, the number of its next event, a tree over its events in each
/// table that it touched, and its savepoints.
#[derive(Drop)]
pub struct TxCtx<H: Hash32> {
    trees: Vec<TableTree<H>>,
    savepoints: Vec<Savepoint>,
    id: TxId,
    seq: u64,
    hasher: H,
    explicit: bool,
}

impl<H: Hash32> TxCtx<H> {
    ghost use Rattle.store_tx.specs.Represents.{Represents, IsOpen, MayNote};

    /// The context of a transaction that has done nothing yet. Takes no memory.
    pub fn new(alloc: Global, hasher: H, id: TxId, explicit: bool) -> TxCtx<H>
        ensures { Represents H.digest hasher result (new_transaction id explicit) }
    {
        TxCtx {
            trees: Vec::new(alloc),
            savepoints: Vec::new(alloc),
            id,
            seq: 0,
            hasher,
            explicit,
        }
    }

    /// Its id.
    pub fn id(&self) -> TxId
        ensures { (h : H) (o : OpenTransaction) → Represents H.digest h self.now o → result ≡ o.id }
    {
        self.id
    }

    /// The number of its next event.
    pub fn seq(&self) -> u64
        ensures { (h : H) (o : OpenTransaction) → Represents H.digest h self.now o → result ≡ o.seq }
    {
        self.seq
    }

    /// Opens a tree for a table, so that its events may be noted. The tree has no leaf before the first one
    /// is, so the context is of the same transaction as before, also after want of memory.
    pub fn open_tree(&mut self, table: TableId) -> Result<(), Memory>
        ensures same { (h : H) (o : OpenTransaction) → Represents H.digest h self.old o
            → Represents H.digest h self.new o }
        ensures ok { OnOk result (IsOpen table self.new) }
        ensures open { (id : ℕ) → IsOpen id self.old → IsOpen id self.new }
    {
        open(self.hasher, &mut self.trees, table)
    }

    /// Adds the leaf of an event to the tree of its table, and counts the event. Takes no memory.
    pub fn note(&mut self, table: TableId, leaf: &[u8])
        requires { MayNote H.digest table self.old }
        ensures noted { (h : H) (o : OpenTransaction) → Represents H.digest h self.old o
            → Represents H.digest h self.new (noting (o.seq + 1) (with_leaf table leaf.now o.trees) o) }
        ensures open { (id : ℕ) → IsOpen id self.old → IsOpen id self.new }
    {
        push_leaf(&mut self.trees, table, leaf);
        self.seq += 1;
    }

    /// Adds a savepoint, with the counter and a mark of each tree. It is refused with LimitExceeded exactly where the
    /// transaction has as many as it may, and else for want of memory alone; the context is then of the same
    /// transaction as before.
    pub fn save(&mut self, name: &Name) -> Result<(), Refusal>
        ensures ok { OnOk result ((h : H) (o : OpenTransaction) → Represents H.digest h self.old o
            → Represents H.digest h self.new (with_savepoint name.now o)) }
        ensures full { (h : H) (o : OpenTransaction) → Represents H.digest h self.old o
            → length o.open_savepoints ≡ max_savepoints → result ≡ Err LimitExceeded }
        ensures room { (h : H) (o : OpenTransaction) → Represents H.digest h self.old o
            → length o.open_savepoints < max_savepoints → (result ≡ Ok tt) ⊎ (result ≡ Err NoMemory) }
        ensures open { (id : ℕ) → IsOpen id self.old → IsOpen id self.new }
        ensures err { OnErr result ((h : H) (o : OpenTransaction) → Represents H.digest h self.old o
            → Represents H.digest h self.new o) }
    {
        if self.savepoints.len() >= MOST_SAVEPOINTS {
            return Err(Refusal::LimitExceeded);
        }
        let savepoint = Savepoint {
            name: name.copy()?,
            marks: marks_of(*self.trees.allocator(), &self.trees)?,
            seq: self.seq,
        };
        self.savepoints.push(savepoint)?;
        Ok(())
    }

    /// Goes back to the most recent savepoint of the name, and answers its counter: trees and counter are as
    /// they were there, later savepoints go, and this one stays. NoSuchSavepoint exactly where no savepoint has the name;
    /// then nothing has changed. Takes no memory.
    pub fn rollback_to(&mut self, name: &Name) -> Result<u64, Refusal>
        ensures back { (h : H) (o : OpenTransaction) (f : OpenSavepoint) (fs : List OpenSavepoint)
            → Represents H.digest h self.old o → savepoints_from name.now o.open_savepoints ≡ f ∷ fs
            → (result ≡ Ok f.seq) × Represents H.digest h self.new (with_undo_state f.seq f.trees (f ∷ fs) o) }
        ensures none { (h : H) (o : OpenTransaction) → Represents H.digest h self.old o
            → savepoints_from name.now o.open_savepoints ≡ [] → (result ≡ Err NoSuchSavepoint) × (self.new ≡ self.old) }
        ensures open { (id : ℕ) → IsOpen id self.old → IsOpen id self.new }
    {
        let kept = kept_by(&self.savepoints, name);
        if kept == 0 {
            return Err(Refusal::NoSuchSavepoint);
        }
        self.savepoints.truncate(kept);
        let savepoint = &self.savepoints[kept - 1];
        restore_all(self.hasher, &mut self.trees, &savepoint.marks);
        self.seq = savepoint.seq;
        Ok(self.seq)
    }

    /// Whether it left no event. Takes no memory.
    pub fn is_read_only(&self) -> bool
        ensures { (h : H) (o : OpenTransaction) → Represents H.digest h self.now o
            → Differ (map (λ t. t.table) o.trees) → result ≡ is_read_only o }
    {
        have_no_leaf(&self.trees)
    }

    /// The root of each tree that has a leaf, by rising table.
    pub fn roots(&self, alloc: Global) -> Result<Items<(TableId, Hash)>, Memory>
        ensures { IfOk result (λ roots. (h : H) (o : OpenTransaction) → Represents H.digest h self.now o
            → Differ (map (λ t. t.table) o.trees) → roots ≡ roots_of_trees (H.digest h) o.trees) }
    {
        roots_of(alloc, &self.trees)
    }
}
