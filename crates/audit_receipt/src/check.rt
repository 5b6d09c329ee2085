//! Whether a receipt is accepted with a digest.

ghost use Rattle.std.specs.Prelude.{◌≡◌, ◌≤◌, ◌<◌, ◌+◌, ◌^◌, ◌==◌, ◌&&◌, Some, None, bytes_eq, length, IfOk};
ghost use Rattle.std.specs.Bool.{Decides};
ghost use Rattle.format_entry.specs.Entry.{IsEntry};
ghost use Rattle.spec_ledger.specs.Blocks.{no_hash, last_hash};
ghost use Rattle.format_receipt.specs.Receipts.{IsReceipt};
ghost use Rattle.audit_receipt.specs.Accepted.{Accepted};
ghost use Rattle.audit_receipt.specs.Tests.{are_linked, is_root, keeps_hash, lead_to, stands_in};

use crate::leaves::entry_leaf;
use audit_extract::record_at;
use audit_paths::root_under;
use base_merkle::Hash32;
use base_types::{Hash, Memory, first_of};
use format_entry::block_hash;
use format_receipt::Receipt;
use sql_types::{BlockRecord, HeldDigest, MAX_BLOCK, TxEntry};
use std::alloc::Global;

/// Whether a receipt is accepted with a digest.
pub fn check_receipt<H: Hash32>(
    alloc: Global,
    h: H,
    r: &Receipt,
    digest: &HeldDigest,
) -> Result<bool, Memory>
    requires { IsReceipt r.now }
    ensures { IfOk result (λ yes. Decides yes (Accepted (H.digest h) r.now digest.now)) }
{
    let own = is_own(r, digest);
    let led = is_led(h, r, digest);
    let stands = is_standing(alloc, h, r)?;
    Ok(are_all(own, led, stands))
}

fn are_all(a: bool, b: bool, c: bool) -> bool
    ensures { result ≡ (a && (b && c)) }
{
    a && b && c
}

fn is_own(r: &Receipt, d: &HeldDigest) -> bool
    ensures { result ≡ bytes_eq r.now.database d.now.database }
{
    is_equal(r.database.bytes(), d.database.bytes())
}

fn is_led<H: Hash32>(h: H, r: &Receipt, d: &HeldDigest) -> bool
    ensures { result ≡ lead_to (H.digest h) r.now.entry.block r.now.records d.now }
{
    leads_to(h, r.entry.block, r.records.as_slice(), d)
}

fn is_standing<H: Hash32>(alloc: Global, h: H, r: &Receipt) -> Result<bool, Memory>
    requires { IsEntry r.now.entry }
    ensures { IfOk result (λ yes. yes ≡ stands_in (H.digest h) r.now.entry r.now.path r.now.records) }
{
    stands_in(alloc, h, &r.entry, r.path.as_slice(), r.records.as_slice())
}

fn is_equal(a: &[u8], b: &[u8]) -> bool
    ensures { result ≡ bytes_eq a.now b.now }
{
    a == b
}

/// Whether the records lead from a block to that of the digest. It takes no memory.
pub fn leads_to<H: Hash32>(h: H, from: u64, records: &[BlockRecord], d: &HeldDigest) -> bool
    ensures { result ≡ lead_to (H.digest h) from records.now d.now }
{
    if !reaches(from, records.len(), d.block) {
        return false;
    }
    are_linked(h, from, records) && is_equal(&last_hash(h, records), &d.hash)
}

fn reaches(from: u64, count: usize, block: u64) -> bool
    ensures { result ≡ (from + count == block + 1) }
{
    from as u128 + count as u128 == block as u128 + 1
}

// Whether the records are of the blocks from one on, and each keeps the hash of the one before.
fn are_linked<H: Hash32>(h: H, from: u64, records: &[BlockRecord]) -> bool
    requires { from + length records.now ≤ 2 ^ 64 }
    ensures { result ≡ are_linked (H.digest h) None from records.now }
{
    let mut before = None;
    for (i, block) in records.iter().enumerate() {
        if !follows(block, from + i as u64, &before) {
            return false;
        }
        before = Some(block_hash(h, block));
    }
    true
}

fn follows(block: &BlockRecord, id: u64, before: &Option<Hash>) -> bool
    ensures { result ≡ (block.now.id == id && keeps_hash before.now block.now) }
{
    block.id == id && keeps_hash(before, block)
}

fn keeps_hash(before: &Option<Hash>, block: &BlockRecord) -> bool
    ensures { result ≡ keeps_hash before.now block.now }
{
    match before {
        Some(hash) => is_equal(&block.previous, hash),
        None => true,
    }
}

fn last_hash<H: Hash32>(h: H, records: &[BlockRecord]) -> Hash
    ensures { result ≡ last_hash (H.digest h) no_hash records.now }
{
    let count = records.len();
    if count < 1 {
        return [0; 32];
    }
    block_hash(h, record_at(records, count - 1))
}

// Whether the entry stands in the block of the first of these records, as the path shows.
fn stands_in<H: Hash32>(
    alloc: Global,
    h: H,
    e: &TxEntry,
    path: &[Hash],
    records: &[BlockRecord],
) -> Result<bool, Memory>
    requires { IsEntry e.now }
    ensures { IfOk result (λ yes. yes ≡ stands_in (H.digest h) e.now path.now records.now) }
{
    match first_of(records) {
        None => Ok(false),
        Some((first, _)) => {
            if first.size > MAX_BLOCK as u64 || e.ordinal >= first.size {
                return Ok(false);
            }
            let leaf = entry_leaf(alloc, e)?;
            let place = e.ordinal as usize;
            let count = first.size as usize;
            Ok(is_root(
                &first.root,
                &root_under(h, path, place, count, leaf.bytes()),
            ))
        }
    }
}

fn is_root(root: &Hash, found: &Option<Hash>) -> bool
    ensures { result ≡ is_root root.now found.now }
{
    match found {
        Some(hash) => is_equal(hash, root),
        None => false,
    }
}
