//! The ledger's cell.

ghost use Rattle.std.specs.Prelude.{◌≡◌, ◌↔◌, ◌+◌, ◌≤◌, ◌^◌, ◌++◌, ◌∷◌, [], ℕ, List, true, Err, length};
ghost use Rattle.std.specs.Prelude.{IfOk, IfErr, OnOk, OnErr};
ghost use Rattle.sql_types.specs.declared.journal.TheConstants.{JOURNAL_VERSION};
ghost use Rattle.sql_types.specs.declared.journal.JournalItem.TheVariants.{Close, Tx};
ghost use Rattle.sql_types.specs.declared.journal.TheConstants.{MAX_BLOCK};
ghost use Rattle.base_types.specs.Ids.{is_tx_id};
ghost use Rattle.spec_model.specs.Journals.{tx_count};
ghost use Rattle.format_entry.specs.Entry.{IsEntry};
ghost use Rattle.store_blocks.specs.LedgerChain.{KeepsHash as ChainKeepsHash};
ghost use Rattle.spec_ledger.specs.Blocks.{no_hash};
ghost use Rattle.spec_ledger.specs.Ledger.{closes};
ghost use Rattle.spec_protocol.specs.Cells.{first_ledger, pending_in};
ghost use Rattle.spec_protocol.specs.LedgerVisits.{drawn, with_item, closed_by, all_closed, next_block};
ghost use Rattle.store_ledger.specs.declared.digest_err.DigestErr.TheVariants.{NoBlock};
ghost use Rattle.store_ledger.specs.Commits.{new_entry};
ghost use Rattle.store_ledger.specs.HashedCell.{KeepsHash};
ghost use Rattle.store_ledger.specs.Issues.{IsOfNewest, IsIssued};

use crate::{CommitErr, DigestErr};
use base_merkle::Hash32;
use base_types::{Hash, Items, Memory, Name, TableId, TxId};
use sql_types::{BlockRecord, Digest, JOURNAL_VERSION, Journal, JournalItem, Script, TxEntry};
use std::alloc::Global;
use std::marker::Model;
use store_blocks::LedgerChain;

/// The block of which a digest was issued, and its hash.
#[derive(Clone, Copy, Debug, PartialEq, Eq)]
pub struct IssuedDigest {
    pub block: u64,
    pub hash: Hash,
}

/// The journal of a database with its entries, blocks and digests, and the id that is drawn next.
/// Contracts see the cell of which the laws on visits speak, and the hash of its last block.
#[derive(Drop)]
pub struct LedgerCell {
    pub(crate) database: Name,
    pub(crate) block_size: u32,
    pub(crate) items: Vec<JournalItem>,
    pub(crate) next: TxId,
    pub(crate) ledger_chain: LedgerChain,
    pub(crate) issued: Vec<Digest>,
}

impl Model for LedgerCell {
    ghost use Rattle.store_ledger.specs.HashedCell.{HashedCell};

    ghost Value = { HashedCell };

    ghost view = { λ c. record {
      cell = record {
        database = c.database;
        block_size = c.block_size;
        items = c.items.items;
        next = c.next;
        chain = c.ledger_chain.ledger;
        issued = c.issued.items;
      };
      hash = c.ledger_chain.hash;
    } };

    ghost use Rattle.store_ledger.specs.HashedCell.{IsCounted};

    ghost invariant = { λ c. IsCounted c.block_size c.items.items c.next c.ledger_chain.ledger };
}

impl LedgerCell {
    /// The cell of a database without transactions, whose blocks take at most so many entries. Takes no
    /// memory.
    pub fn new(alloc: Global, database: Name, block_size: u32) -> LedgerCell
        requires some { 1 ≤ block_size }
        requires most { block_size ≤ MAX_BLOCK }
        ensures { result ≡ record { cell = first_ledger database block_size; hash = no_hash } }
    {
        LedgerCell {
            database,
            block_size,
            items: Vec::new(alloc),
            next: 1,
            ledger_chain: LedgerChain::new(alloc),
            issued: Vec::new(alloc),
        }
    }

    /// The name of the database.
    pub fn database(&self) -> &Name
        ensures { result.now ≡ self.now.cell.database }
    {
        &self.database
    }

    /// The most entries that a block takes.
    pub fn block_size(&self) -> u32
        ensures size { result ≡ self.now.cell.block_size }
        ensures some { 1 ≤ result }
        ensures most { result ≤ MAX_BLOCK }
    {
        self.block_size
    }

    /// The id that is drawn next.
    pub fn next_id(&self) -> TxId
        ensures id { result ≡ self.now.cell.next }
        ensures most { result ≤ 2 ^ 63 }
    {
        self.next
    }

    /// Draws the next id. Takes no memory.
    pub fn begin(&mut self) -> TxId
        requires { is_tx_id self.old.cell.next ≡ true }
        ensures id { result ≡ self.old.cell.next }
        ensures cell { self.new.cell ≡ drawn self.old.cell }
        ensures hash { self.new.hash ≡ self.old.hash }
    {
        let id = self.next;
        self.next += 1;
        id
    }

    /// The point at which a transaction ends that isn't committed now: how many transactions the journal has.
    pub fn point(&self) -> u64
        ensures { result ≡ tx_count self.now.cell.items }
    {
        self.ledger_chain.entries().len() as u64
    }

    /// The items of the journal.
    pub fn items(&self) -> &[JournalItem]
        ensures { result.now ≡ self.now.cell.items }
    {
        &self.items
    }

    /// The entries in ledger order: those of one block after another, and then those that are pending.
    pub fn entries(&self) -> &[TxEntry]
        ensures { result.now ≡ self.now.cell.chain.closed ++ self.now.cell.chain.pending }
    {
        self.ledger_chain.entries()
    }

    /// How many entries are in no block yet.
    pub fn pending(&self) -> u64
        ensures count { result ≡ pending_in self.now.cell }
        ensures within { result ≤ tx_count self.now.cell.items }
    {
        self.ledger_chain.pending() as u64
    }

    /// How many entries the next block takes: as many as are pending, at most the block size.
    pub fn next_count(&self) -> u32
        ensures count { result ≡ next_block self.now.cell }
        ensures some { 1 ≤ pending_in self.now.cell → 1 ≤ result }
        ensures fits { result ≤ self.now.cell.block_size }
        ensures within { result ≤ pending_in self.now.cell }
    {
        let pending = self.ledger_chain.pending();
        if self.block_size as usize <= pending {
            self.block_size
        } else {
            pending as u32
        }
    }

    /// The records of the blocks, by number.
    pub fn blocks(&self) -> &[BlockRecord]
        ensures { result.now ≡ self.now.cell.chain.blocks }
    {
        self.ledger_chain.blocks()
    }

    /// The digests in the order of issue.
    pub fn digests(&self) -> &[Digest]
        ensures { result.now ≡ self.now.cell.issued }
    {
        &self.issued
    }

    /// Commits a transaction: its script is the journal's last item, its entry is pending. Answers its
    /// place in ledger order, counted from 1. For want of memory nothing changes, and the script comes
    /// back.
    pub fn commit(
        &mut self,
        id: TxId,
        session: &Name,
        time: u64,
        explicit: bool,
        script: Script,
        roots: Items<(TableId, Hash)>,
    ) -> Result<u64, CommitErr>
        requires { IsEntry (new_entry id session.now time roots) }
        ensures place { IfOk result (λ place. place ≡ tx_count self.old.cell.items + 1) }
        ensures cell { OnOk result (self.new.cell ≡ with_item (new_entry id session.now time roots)
            (Tx id session.now time explicit script) self.old.cell) }
        ensures hash { self.new.hash ≡ self.old.hash }
        ensures back { IfErr result (λ e. e.script ≡ script) }
        ensures err { OnErr result (self.new ≡ self.old) }
    {
        let Ok((name, principal)) = two_copies(session) else {
            return Err(CommitErr { script });
        };
        let entry = TxEntry {
            id,
            block: 0,
            ordinal: 0,
            time,
            principal,
            roots,
        };
        if self.items.reserve(1).is_err() || self.ledger_chain.commit(entry).is_err() {
            return Err(CommitErr { script });
        }
        self.items.push_reserved(JournalItem::Tx {
            id,
            session: name,
            time,
            explicit,
            script,
        });
        Ok(self.point())
    }

    /// Closes a block of the first `count` entries that are pending. It hashes each of them, about one
    /// node for each, and the record. For want of memory nothing changes.
    pub fn close_block<H: Hash32>(&mut self, alloc: Global, h: H, count: u32) -> Result<(), Memory>
        requires some { 1 ≤ count }
        requires fits { count ≤ self.old.cell.block_size }
        requires pending { count ≤ pending_in self.old.cell }
        requires hash { KeepsHash (H.digest h) self.old }
        ensures cell { OnOk result (self.new.cell ≡ closed_by (H.digest h) count self.old.cell) }
        ensures hash { KeepsHash (H.digest h) self.new }
        ensures err { OnErr result (self.new ≡ self.old) }
    {
        self.items.reserve(1)?;
        self.ledger_chain.close(alloc, h, count as usize)?;
        self.items.push_reserved(JournalItem::Close(count));
        Ok(())
    }

    /// Closes all that is pending, in blocks of the block size with the rest last, and issues the digest
    /// of the newest block, as made at this moment. `NoBlock` exactly where the journal has no
    /// transaction. After want of memory no digest was issued and full blocks may have been closed, but never
    /// all that was pending; nothing changed where one block takes all of it.
    #[tactic(auto, using(crate::proofs::Issuing::issued_of_all))]
    pub fn digest<H: Hash32>(
        &mut self,
        alloc: Global,
        h: H,
        made: u64,
    ) -> Result<IssuedDigest, DigestErr>
        requires { KeepsHash (H.digest h) self.old }
        ensures ok { IfOk result (λ issued.
            IsIssued (H.digest h) made self.old.cell issued self.new.cell) }
        ensures no_block { (result ≡ Err NoBlock) ↔ (tx_count self.old.cell.items ≡ 0) }
        ensures unchanged { result ≡ Err NoBlock → self.new ≡ self.old }
        ensures kept { pending_in self.old.cell ≤ self.old.cell.block_size
            → OnErr result (self.new ≡ self.old) }
        ensures memory { OnErr result ((n : ℕ) × (self.new.cell ≡ all_closed (H.digest h) n self.old.cell)) }
        ensures left { OnErr result (1 ≤ pending_in self.old.cell → 1 ≤ pending_in self.new.cell) }
        ensures hash { KeepsHash (H.digest h) self.new }
    {
        if self.point() == 0 {
            return Err(DigestErr::NoBlock);
        }
        self.close_full(alloc, h)?;
        Ok(self.issue(alloc, h, made)?)
    }

    // Closes full blocks until one block takes what is pending.
    fn close_full<H: Hash32>(&mut self, alloc: Global, h: H) -> Result<(), Memory>
        requires { KeepsHash (H.digest h) self.old }
        ensures fits { OnOk result (pending_in self.new.cell ≤ self.new.cell.block_size) }
        ensures rest { all_closed (H.digest h) (pending_in self.new.cell) self.new.cell
            ≡ all_closed (H.digest h) (pending_in self.old.cell) self.old.cell }
        ensures closed { (n : ℕ) × (self.new.cell ≡ all_closed (H.digest h) n self.old.cell) }
        ensures left { 1 ≤ pending_in self.old.cell → 1 ≤ pending_in self.new.cell }
        ensures kept { pending_in self.old.cell ≤ self.old.cell.block_size → self.new ≡ self.old }
        ensures count { tx_count self.new.cell.items ≡ tx_count self.old.cell.items }
        ensures hash { KeepsHash (H.digest h) self.new }
    {
        while self.pending() > u64::from(self.block_size()) {
            let count = self.next_count();
            self.close_block(alloc, h, count)?;
        }
        Ok(())
    }

    // Closes what is pending, which one block takes, and issues the digest of the newest block. All that
    // takes memory comes before the digest. For want of it nothing changes.
    fn issue<H: Hash32>(&mut self, alloc: Global, h: H, made: u64) -> Result<IssuedDigest, Memory>
        requires fits { pending_in self.old.cell ≤ self.old.cell.block_size }
        requires some { 1 ≤ tx_count self.old.cell.items }
        requires hash { KeepsHash (H.digest h) self.old }
        ensures ok { IfOk result (λ issued.
            IsIssued (H.digest h) made self.old.cell issued self.new.cell) }
        ensures hash { KeepsHash (H.digest h) self.new }
        ensures err { OnErr result (self.new ≡ self.old) }
    {
        let database = self.database.copy()?;
        self.issued.reserve(1)?;
        close_rest(&mut self.items, &mut self.ledger_chain, alloc, h)?;
        let digest = self.newest_digest(database, made);
        let block = digest.block;
        let hash = digest.hash;
        self.issued.push_reserved(digest);
        Ok(IssuedDigest { block, hash })
    }

    // The digest of the newest block, where nothing is pending.
    fn newest_digest(&self, database: Name, made: u64) -> Digest
        requires none_pending { pending_in self.now.cell ≡ 0 }
        requires some { 1 ≤ tx_count self.now.cell.items }
        requires database { database ≡ self.now.cell.database }
        ensures made { result.made ≡ made }
        ensures newest { (h : List ℕ → List ℕ) → KeepsHash h self.now
            → IsOfNewest h self.now.cell result }
    {
        let entries = self.ledger_chain.entries();
        let last = &entries[entries.len() - 1];
        Digest {
            database,
            block: self.ledger_chain.blocks().len() as u64 - 1,
            hash: self.ledger_chain.hash(),
            last_commit: last.time,
            made,
        }
    }

    /// The journal, and the digests in the order of issue. Takes no memory.
    pub fn into_parts(self) -> (Journal, Items<Digest>)
        ensures version { result.0.version ≡ JOURNAL_VERSION }
        ensures database { result.0.database ≡ self.cell.database }
        ensures items { result.0.items ≡ self.cell.items }
        ensures digests { result.1 ≡ self.cell.issued }
        ensures next { self.cell.next ≤ 2 ^ 63 }
    {
        let LedgerCell {
            database,
            items,
            issued,
            ..
        } = self;
        let journal = Journal {
            version: JOURNAL_VERSION,
            database,
            items: Items::from_vec(items),
        };
        (journal, Items::from_vec(issued))
    }
}

// The journal and the entry each have the name.
fn two_copies(name: &Name) -> Result<(Name, Name), Memory>
    ensures { IfOk result (λ names. (names.0 ≡ name.now) × (names.1 ≡ name.now)) }
{
    Ok((name.copy()?, name.copy()?))
}

// Closes a block of all that is pending, where something is. For want of memory nothing changes.
fn close_rest<H: Hash32>(
    items: &mut Vec<JournalItem>,
    ledger_chain: &mut LedgerChain,
    alloc: Global,
    h: H,
) -> Result<(), Memory>
    requires few { length ledger_chain.old.ledger.pending ≤ MAX_BLOCK }
    requires hash { ChainKeepsHash (H.digest h) ledger_chain.old }
    ensures none { length ledger_chain.old.ledger.pending ≡ 0
        → (items.new.items ≡ items.old.items) × (ledger_chain.new ≡ ledger_chain.old) }
    ensures item { OnOk result (1 ≤ length ledger_chain.old.ledger.pending
        → items.new.items ≡ items.old.items ++ Close (length ledger_chain.old.ledger.pending) ∷ []) }
    ensures ledger { OnOk result (1 ≤ length ledger_chain.old.ledger.pending
        → ledger_chain.new.ledger ≡ closes (H.digest h) (length ledger_chain.old.ledger.pending) ledger_chain.old.ledger) }
    ensures hash { OnOk result (ChainKeepsHash (H.digest h) ledger_chain.new) }
    ensures err { OnErr result ((items.new.items ≡ items.old.items) × (ledger_chain.new ≡ ledger_chain.old)) }
{
    let count = ledger_chain.pending();
    if count == 0 {
        return Ok(());
    }
    items.reserve(1)?;
    ledger_chain.close(alloc, h, count)?;
    items.push_reserved(JournalItem::Close(count as u32));
    Ok(())
}
