//! The books of a database.

ghost use Rattle.std.specs.Prelude.{◌≡◌, ◌≤◌, ◌<◌, ◌+◌, ◌++◌, length, IfOk, OnOk, OnErr};
ghost use Rattle.format_entry.specs.Entry.{IsEntry};
ghost use Rattle.spec_ledger.specs.Blocks.{no_hash};
ghost use Rattle.spec_ledger.specs.Ledger.{empty_ledger, commits, closes};
ghost use Rattle.store_blocks.specs.Closings.{AreFull, all_placed, closed_by, placed_first, takes, with_pending};
ghost use Rattle.store_blocks.specs.LedgerChain.{KeepsHash};

use crate::placing::{place_at, place_between};
use base_merkle::Hash32;
use base_types::{Hash, Items, Memory};
use format_entry::block_hash;
use format_roots::entries_root;
use sql_types::{BlockRecord, TxEntry};
use std::alloc::Global;
use std::marker::Model;

/// The most entries that may be pending: each place in a block has 4 bytes.
const MAX_PENDING: usize = 4294967295;

/// The blocks of a database and its entries in ledger order, and the hash of the last block, which is kept so
/// that no record is hashed twice.
#[derive(Drop)]
pub struct LedgerChain {
    blocks: Items<BlockRecord>,
    // In ledger order: those of the blocks, and then those that are pending.
    entries: Vec<TxEntry>,
    // How many of them are in blocks.
    closed: usize,
    hash: Hash,
}

impl Model for LedgerChain {
    ghost use Rattle.store_blocks.specs.LedgerChain.{HashedLedger};

    ghost Value = { HashedLedger };

    ghost use Rattle.store_blocks.specs.LedgerChain.{ledger_chain_of};

    ghost view = { λ b. ledger_chain_of b.blocks b.entries.items b.closed b.hash };

    ghost use Rattle.store_blocks.specs.LedgerChain.{IsLedgerChain};

    ghost invariant = { λ b. IsLedgerChain b.blocks b.entries.items b.closed };
}

impl LedgerChain {
    /// Those of a database without transactions. Takes no memory.
    pub fn new(alloc: Global) -> LedgerChain
        ensures { result ≡ record { ledger = empty_ledger; hash = no_hash } }
    {
        LedgerChain {
            blocks: Items::new(alloc),
            entries: Vec::new(alloc),
            closed: 0,
            hash: [0; 32],
        }
    }

    /// The records of the blocks, by number.
    pub fn blocks(&self) -> &[BlockRecord]
        ensures { result.now ≡ self.now.ledger.blocks }
    {
        self.blocks.as_slice()
    }

    /// The entries in ledger order: those of one block after another, and then those that are pending.
    pub fn entries(&self) -> &[TxEntry]
        ensures { result.now ≡ self.now.ledger.closed ++ self.now.ledger.pending }
    {
        &self.entries
    }

    /// How many entries are in no block yet.
    pub fn pending(&self) -> usize
        ensures { result ≡ length self.now.ledger.pending }
    {
        self.entries.len() - self.closed
    }

    /// The hash of the last block, and 32 zero bytes where there is none.
    pub fn hash(&self) -> Hash
        ensures { result ≡ self.now.hash }
    {
        self.hash
    }

    /// Adds the entry of a transaction that was committed to those that are pending. For want of memory
    /// nothing changes; it also answers this where 2^32 - 1 entries are pending, since a place has 4 bytes.
    pub fn commit(&mut self, entry: TxEntry) -> Result<(), Memory>
        requires { IsEntry entry }
        ensures ledger { OnOk result (self.new.ledger ≡ commits entry self.old.ledger) }
        ensures hash { OnOk result (self.new.hash ≡ self.old.hash) }
        ensures err { OnErr result (self.new ≡ self.old) }
    {
        let ordinal = self.pending();
        if ordinal >= MAX_PENDING {
            return Err(Memory);
        }
        let mut entry = entry;
        place_at(&mut entry, self.blocks.len() as u64, ordinal as u64);
        self.entries.push(entry)?;
        Ok(())
    }

    // Gives the first `count` entries that are pending their places in the next block.
    fn place_first(&mut self, count: usize)
        requires { count ≤ length self.old.ledger.pending }
        ensures ledger { self.new.ledger
            ≡ with_pending (placed_first (length self.old.ledger.blocks) count self.old.ledger.pending) self.old.ledger }
        ensures hash { self.new.hash ≡ self.old.hash }
    {
        let end = self.closed + count;
        let block = self.blocks.len() as u64;
        place_between(&mut self.entries, self.closed, end, block);
    }

    // Makes a block of the first `count` entries that are pending; those behind them keep the places that they have.
    // For want of memory nothing changes.
    fn take_block<H: Hash32>(&mut self, alloc: Global, h: H, count: usize) -> Result<(), Memory>
        requires count { count ≤ length self.old.ledger.pending }
        requires hash { KeepsHash (H.digest h) self.old }
        ensures ledger { OnOk result (self.new.ledger ≡ takes (H.digest h) count self.old.ledger) }
        ensures hash { OnOk result (KeepsHash (H.digest h) self.new) }
        ensures err { OnErr result (self.new ≡ self.old) }
    {
        let end = self.closed + count;
        let block = BlockRecord {
            id: self.blocks.len() as u64,
            root: entries_root(alloc, h, &self.entries[self.closed..end])?,
            size: count as u64,
            previous: self.hash,
        };
        self.blocks.push(block)?;
        self.closed = end;
        self.hash = block_hash(h, &block);
        Ok(())
    }

    /// Closes a block of the first `count` entries that are pending; those behind them get their places anew.
    /// It hashes each of these entries, about one node for each, and the record. For want of memory nothing
    /// changes.
    pub fn close<H: Hash32>(&mut self, alloc: Global, h: H, count: usize) -> Result<(), Memory>
        requires count { count ≤ length self.old.ledger.pending }
        requires hash { KeepsHash (H.digest h) self.old }
        ensures ledger { OnOk result (self.new.ledger ≡ closes (H.digest h) count self.old.ledger) }
        ensures hash { OnOk result (KeepsHash (H.digest h) self.new) }
        ensures err { OnErr result (self.new ≡ self.old) }
    {
        self.take_block(alloc, h, count)?;
        self.place_first(self.pending());
        Ok(())
    }

    /// Closes blocks of the first `size` entries that are pending as long as there are so many, and answers how many
    /// it closed. Each entry that gets into a block gets its place once for it, and each that stays pending once for
    /// all; it hashes as `close` does.
    pub fn close_full<H: Hash32>(
        self,
        alloc: Global,
        h: H,
        size: usize,
    ) -> Result<(LedgerChain, u64), Memory>
        requires some { 1 ≤ size }
        requires hash { KeepsHash (H.digest h) self }
        requires placed { self.ledger ≡ all_placed self.ledger }
        ensures ledger { IfOk result (λ r. r.0.ledger ≡ closed_by (H.digest h) r.1 size self.ledger) }
        ensures full { IfOk result (λ r. AreFull (H.digest h) r.1 size self.ledger) }
        ensures few { IfOk result (λ r. length r.0.ledger.pending < size) }
        ensures hash { IfOk result (λ r. KeepsHash (H.digest h) r.0) }
    {
        let mut chain = self;
        let mut count = 0;
        'closings: while chain.pending() >= size {
            chain.place_first(size);
            chain.take_block(alloc, h, size)?;
            count += 1;
        }
        chain.place_first(chain.pending());
        Ok((chain, count))
    }

    /// The blocks and the entries in ledger order.
    pub fn into_parts(self) -> (Items<BlockRecord>, Items<TxEntry>)
        ensures blocks { result.0 ≡ self.ledger.blocks }
        ensures entries { result.1 ≡ self.ledger.closed ++ self.ledger.pending }
    {
        let LedgerChain {
            blocks,
            entries,
            ..
        } = self;
        (blocks, Items::from_vec(entries))
    }
}
