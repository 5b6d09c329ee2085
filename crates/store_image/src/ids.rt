//! The transactions that a journal has.

ghost use Rattle.std.specs.Prelude.{◌≡◌, ◌==◌, ℕ, IfOk};
ghost use Rattle.std.specs.List.{list_any};
ghost use Rattle.spec_history.specs.Journals.{ids_of};
ghost use Rattle.spec_protocol.specs.Contents.{has_id};

use base_types::{Memory, TxId};
use sql_types::JournalItem;
use std::alloc::Global;
use std::marker::Model;

/// The ids of some transactions, which rise.
#[derive(Drop)]
pub struct CommittedTxs {
    ids: Vec<TxId>,
}

impl Model for CommittedTxs {
    ghost use Rattle.std.specs.Prelude.{ℕ, List};
    ghost use Rattle.std.specs.List.Sorted.{IsNonDecreasing};

    ghost Value = { List ℕ };

    ghost view = { λ c. c.ids.items };

    ghost invariant = { λ c. IsNonDecreasing c.ids.items };
}

impl CommittedTxs {
    /// The transactions of a journal. Takes the time of sorting their ids. The only error is want of memory.
    pub fn of(alloc: Global, items: &[JournalItem]) -> Result<CommittedTxs, Memory>
        ensures { IfOk result (λ c. (id : ℕ) → list_any (λ n. n == id) c ≡ has_id items.now id) }
    {
        let mut ids = ids_in(alloc, items)?;
        ids.sort_unstable();
        Ok(CommittedTxs { ids })
    }

    /// Whether it is one of them. Takes an ordered search.
    pub fn has(&self, id: TxId) -> bool
        ensures { result ≡ list_any (λ n. n == id) self.now }
    {
        self.ids.binary_search(&id).is_ok()
    }
}

fn ids_in(alloc: Global, items: &[JournalItem]) -> Result<Vec<TxId>, Memory>
    ensures { IfOk result (λ ids. ids.items ≡ ids_of items.now) }
{
    let mut ids = Vec::new(alloc);
    for item in items {
        if let JournalItem::Tx { id, .. } = item {
            ids.push(*id)?;
        }
    }
    Ok(ids)
}
