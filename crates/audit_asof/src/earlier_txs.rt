//! The transactions of the first entries of an image.

ghost use Rattle.std.specs.Prelude.{◌≡◌, ℕ, IfOk, map};
ghost use Rattle.spec_model.specs.Lists.{is_among};

use base_types::{Memory, TxId};
use sql_types::TxEntry;
use std::alloc::Global;
use std::marker::Model;

/// The ids of some transactions, which rise.
#[derive(Drop)]
pub(crate) struct EarlierTxs {
    ids: Vec<TxId>,
}

impl Model for EarlierTxs {
    ghost use Rattle.std.specs.Prelude.{ℕ, List};
    ghost use Rattle.std.specs.List.Sorted.{IsNonDecreasing};

    ghost Value = { List ℕ };

    ghost view = { λ t. t.ids.items };

    ghost invariant = { λ t. IsNonDecreasing t.ids.items };
}

impl EarlierTxs {
    /// The transactions of these entries. Takes the time of sorting their ids. The only error is want of memory.
    pub(crate) fn of(alloc: Global, entries: &[TxEntry]) -> Result<EarlierTxs, Memory>
        ensures { IfOk result (λ txs. (id : ℕ)
            → is_among txs id ≡ is_among (map (λ e. e.id) entries.now) id) }
    {
        let mut ids = ids_of(alloc, entries)?;
        ids.sort_unstable();
        Ok(EarlierTxs { ids })
    }

    /// Whether it is one of them. Takes an ordered search.
    pub(crate) fn has(&self, id: TxId) -> bool
        ensures { result ≡ is_among self.now id }
    {
        self.ids.binary_search(&id).is_ok()
    }
}

fn ids_of(alloc: Global, entries: &[TxEntry]) -> Result<Vec<TxId>, Memory>
    ensures { IfOk result (λ ids. ids.items ≡ map (λ e. e.id) entries.now) }
{
    let mut ids = Vec::with_capacity(alloc, entries.len())?;
    for entry in entries {
        ids.push(entry.id)?;
    }
    Ok(ids)
}
