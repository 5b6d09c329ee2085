//! The ledger's cell of a journal that is there.

ghost use Rattle.std.specs.Prelude.{◌≡◌};
ghost use Rattle.spec_continued.specs.Continued.{ledger_from};
ghost use Rattle.store_ledger.specs.HashedCell.{IsCounted};

use crate::cell::LedgerCell;
use base_types::{Name, TxId};
use sql_types::JournalItem;
use std::alloc::Global;
use store_blocks::LedgerChain;

impl LedgerCell {
    /// The cell of a database with these items of its journal, and with the blocks and entries that were made of
    /// them, whose further blocks take at most so many entries; no digest was issued. Nothing is hashed, and no
    /// memory is taken.
    pub fn going_on(
        alloc: Global,
        database: Name,
        block_size: u32,
        items: Vec<JournalItem>,
        next: TxId,
        ledger_chain: LedgerChain,
    ) -> LedgerCell
        requires { IsCounted block_size items.items next ledger_chain.ledger }
        ensures { result ≡ record {
          cell = ledger_from database block_size items.items next ledger_chain.ledger;
          hash = ledger_chain.hash;
        } }
    {
        LedgerCell {
            database,
            block_size,
            items,
            next,
            ledger_chain,
            issued: Vec::new(alloc),
        }
    }
}
