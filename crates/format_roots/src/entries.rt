//! The root over entries.

ghost use Rattle.std.specs.Prelude.{◌≡◌, ◌∷◌, [], map, IfOk, OnOk};
ghost use Rattle.std.specs.List.{AllByRecursion};
ghost use Rattle.format_entry.specs.Entry.{IsEntry, entry_bytes};
ghost use Rattle.base_merkle.specs.TreeHash.{tree_hash};

use crate::leaves::four_leaf_hashes;
use base_merkle::{Hash32, leaf_hash, root_of_hashes};
use base_types::{Hash, Memory};
use format_entry::{TxEntry, write_entry};
use std::alloc::Global;

/// The bytes of four entries that are hashed together.
#[derive(Drop)]
struct Buffers {
    a: Vec<u8>,
    b: Vec<u8>,
    c: Vec<u8>,
    d: Vec<u8>,
}

/// Makes the bytes those of the entry, whatever they were.
fn spell(entry: &TxEntry, bytes: &mut Vec<u8>) -> Result<(), Memory>
    requires { IsEntry entry.now }
    ensures { OnOk result (bytes.new.items ≡ entry_bytes entry.now) }
{
    bytes.clear();
    write_entry(entry, bytes)
}

/// The hash of the entry's leaf.
fn entry_hash<H: Hash32>(h: H, bytes: &mut Vec<u8>, entry: &TxEntry) -> Result<Hash, Memory>
    requires { IsEntry entry.now }
    ensures { IfOk result (λ hash. hash ≡ H.digest h (0 ∷ entry_bytes entry.now)) }
{
    spell(entry, bytes)?;
    Ok(leaf_hash(h, bytes))
}

/// The hashes of the leaves of four entries, computed together.
fn four_entry_hashes<H: Hash32>(
    h: H,
    bytes: &mut Buffers,
    a: &TxEntry,
    b: &TxEntry,
    c: &TxEntry,
    d: &TxEntry,
) -> Result<[Hash; 4], Memory>
    requires first { IsEntry a.now }
    requires second { IsEntry b.now }
    requires third { IsEntry c.now }
    requires fourth { IsEntry d.now }
    ensures { IfOk result (λ hashes. hashes ≡ H.digest h (0 ∷ entry_bytes a.now)
        ∷ H.digest h (0 ∷ entry_bytes b.now) ∷ H.digest h (0 ∷ entry_bytes c.now)
        ∷ H.digest h (0 ∷ entry_bytes d.now) ∷ []) }
{
    spell(a, &mut bytes.a)?;
    spell(b, &mut bytes.b)?;
    spell(c, &mut bytes.c)?;
    spell(d, &mut bytes.d)?;
    Ok(four_leaf_hashes(h, &bytes.a, &bytes.b, &bytes.c, &bytes.d))
}

/// The hashes of the leaves of the entries, in their order. As many as can be are computed four at a time.
fn entry_hashes<H: Hash32>(alloc: Global, h: H, entries: &[TxEntry]) -> Result<Vec<Hash>, Memory>
    requires { AllByRecursion IsEntry entries.now }
    ensures { IfOk result (λ hashes. hashes.items ≡ map (λ e. H.digest h (0 ∷ entry_bytes e)) entries.now) }
{
    let mut hashes = Vec::with_capacity(alloc, entries.len())?;
    let mut bytes = Buffers {
        a: Vec::new(alloc),
        b: Vec::new(alloc),
        c: Vec::new(alloc),
        d: Vec::new(alloc),
    };
    let mut done = 0;
    'fours: while entries.len() - done >= 4 {
        let four = four_entry_hashes(
            h,
            &mut bytes,
            &entries[done],
            &entries[done + 1],
            &entries[done + 2],
            &entries[done + 3],
        )?;
        hashes.extend_from_slice(&four)?;
        done += 4;
    }
    'rest: while done < entries.len() {
        let hash = entry_hash(h, &mut bytes.a, &entries[done])?;
        hashes.push(hash)?;
        done += 1;
    }
    Ok(hashes)
}

/// The tree hash over the bytes of the entries. It costs the hash of each entry's bytes, and about one of a
/// node; leaves, and nodes of one level, are hashed four at a time. While it runs it takes 32 bytes for each
/// entry, and half of that again.
pub fn entries_root<H: Hash32>(alloc: Global, h: H, entries: &[TxEntry]) -> Result<Hash, Memory>
    requires { AllByRecursion IsEntry entries.now }
    ensures { IfOk result (λ root. root ≡ tree_hash (H.digest h) (map entry_bytes entries.now)) }
{
    let hashes = entry_hashes(alloc, h, entries)?;
    let root = root_of_hashes(alloc, h, hashes)?;
    Ok(root)
}
