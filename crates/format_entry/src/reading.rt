//! Reading the bytes of an entry.

ghost use Rattle.std.specs.Prelude.{◌≡◌, Some, IfOk, IfSome};
ghost use Rattle.base_fields.specs.Readers.{times};
ghost use Rattle.base_fields.specs.Reading.{Finds, ReadsAs};
ghost use Rattle.sql_types.specs.declared.entry.TxEntry.{TxEntry};
ghost use Rattle.format_entry.specs.Entry.{IsEntry, entry_bytes, rise_above, tables_rise};
ghost use Rattle.format_entry.specs.EntryReading.{entry_at, root_at, roots_at};

use base_fields::{
    ReadError, hash_at, literal, moment_at, session_at, tx_id_at, u8_at, u32_at, u64_at, whole,
};
use base_types::{Hash, Items, Memory, TableId};
use sql_types::TxEntry;
use std::alloc::Global;

/// The entry whose bytes these are, all of them, or None exactly where they are those of no entry.
pub fn read_entry(alloc: Global, bytes: &[u8]) -> Result<Option<TxEntry>, Memory>
    ensures found { IfOk result (λ read. IfSome read (λ e. IsEntry e × (bytes.now ≡ entry_bytes e))) }
    ensures only { (e : TxEntry) → IsEntry e → bytes.now ≡ entry_bytes e
        → IfOk result (λ read. read ≡ Some e) }
{
    let found = whole(entry_at(alloc, bytes))?;
    Ok(found)
}

#[tactic(auto, unfolding(crate::specs::EntryReading::entry_at, crate::specs::EntryReading::head_at))]
fn entry_at(alloc: Global, bytes: &[u8]) -> Result<(TxEntry, &[u8]), ReadError>
    ensures { ReadsAs (λ x. (x.0, x.1.now)) result (entry_at bytes.now) }
{
    let rest = literal(&[1], bytes)?;
    let (id, rest) = tx_id_at(rest)?;
    let (block, rest) = u64_at(rest)?;
    let (ordinal, rest) = u32_at(rest)?;
    let (time, rest) = moment_at(rest)?;
    let (principal, rest) = session_at(alloc, rest)?;
    let rest = literal(&[1], rest)?;
    let (roots, rest) = roots_at(alloc, rest)?;
    let entry = TxEntry {
        id,
        block,
        ordinal: ordinal.into(),
        time,
        principal,
        roots,
    };
    Ok((entry, rest))
}

/// The roots at the front of the bytes, behind their count, and what follows them.
#[tactic(auto, unfolding(crate::specs::EntryReading::roots_at))]
pub fn roots_at(alloc: Global, bytes: &[u8]) -> Result<(Items<(TableId, Hash)>, &[u8]), ReadError>
    ensures { ReadsAs (λ x. (x.0, x.1.now)) result (roots_at bytes.now) }
{
    let (count, rest) = u8_at(bytes)?;
    let (roots, rest) = some_roots(alloc, count, rest)?;
    if !tables_rise(roots.as_slice()) {
        return Err(ReadError::Malformed);
    }
    Ok((roots, rest))
}

fn some_roots(
    alloc: Global,
    count: u8,
    bytes: &[u8],
) -> Result<(Items<(TableId, Hash)>, &[u8]), ReadError>
    ensures { ReadsAs (λ x. (x.0, x.1.now)) result (times root_at count bytes.now) }
{
    let mut roots = Items::new(alloc);
    let mut rest = bytes;
    for _ in 0..count {
        let (root, after) = root_at(rest)?;
        roots.push(root)?;
        rest = after;
    }
    Ok((roots, rest))
}

#[tactic(auto, unfolding(crate::specs::EntryReading::root_at))]
fn root_at(bytes: &[u8]) -> Result<((TableId, Hash), &[u8]), ReadError>
    ensures { Finds (λ x. (x.0, x.1.now)) result (root_at bytes.now) }
{
    let (table, rest) = u32_at(bytes)?;
    let (root, rest) = hash_at(rest)?;
    Ok(((table, root), rest))
}

// Whether there is a root, and the tables rise strictly.
fn tables_rise(roots: &[(TableId, Hash)]) -> bool
    ensures { result ≡ tables_rise roots.now }
{
    match roots {
        [] => false,
        [(first, _), rest @ ..] => rise_above(*first, rest),
    }
}

fn rise_above(before: TableId, roots: &[(TableId, Hash)]) -> bool
    ensures { result ≡ rise_above before roots.now }
{
    let mut last = before;
    let mut rest = roots;
    while let [(table, _), more @ ..] = rest {
        if *table <= last {
            return false;
        }
        last = *table;
        rest = more;
    }
    true
}
