//! Copies of entries.

ghost use Rattle.std.specs.Prelude.{◌≡◌, IfOk};

use base_types::{Items, Memory};
use sql_types::TxEntry;
use std::alloc::Global;

/// Copies of the entries.
pub(crate) fn copy_entries(alloc: Global, entries: &[TxEntry]) -> Result<Items<TxEntry>, Memory>
    ensures { IfOk result (λ copies. copies ≡ entries.now) }
{
    let mut copies = Vec::with_capacity(alloc, entries.len())?;
    for entry in entries {
        copies.push(copy_entry(alloc, entry)?)?;
    }
    Ok(Items::from_vec(copies))
}

fn copy_entry(alloc: Global, entry: &TxEntry) -> Result<TxEntry, Memory>
    ensures { IfOk result (λ copy. copy ≡ entry.now) }
{
    Ok(TxEntry {
        id: entry.id,
        block: entry.block,
        ordinal: entry.ordinal,
        time: entry.time,
        principal: entry.principal.copy()?,
        roots: Items::from_vec(Vec::from_slice(alloc, entry.roots.as_slice())?),
    })
}
