//! Entries as leaves of the tree of their block.

ghost use Rattle.std.specs.Prelude.{◌≡◌, All, map, IfOk};
ghost use Rattle.format_entry.specs.Entry.{IsEntry, entry_bytes};

use base_types::{Blob, Memory};
use format_entry::write_entry;
use sql_types::TxEntry;
use std::alloc::Global;

/// The bytes of an entry, which are its leaf.
pub(crate) fn entry_leaf(alloc: Global, entry: &TxEntry) -> Result<Blob, Memory>
    requires { IsEntry entry.now }
    ensures { IfOk result (λ leaf. leaf ≡ entry_bytes entry.now) }
{
    let mut bytes = Vec::new(alloc);
    write_entry(entry, &mut bytes)?;
    Ok(Blob::from_vec(bytes))
}

/// The leaves of some entries.
pub(crate) fn entry_leaves(alloc: Global, entries: &[TxEntry]) -> Result<Vec<Blob>, Memory>
    requires { All IsEntry entries.now }
    ensures { IfOk result (λ leaves. leaves.items ≡ map entry_bytes entries.now) }
{
    let mut leaves = Vec::new(alloc);
    for entry in entries {
        leaves.push(entry_leaf(alloc, entry)?)?;
    }
    Ok(leaves)
}
