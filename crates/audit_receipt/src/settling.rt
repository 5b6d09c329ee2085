//! Two receipts of one place.

ghost use Rattle.std.specs.Prelude.{◌≡◌, ◌≢◌, ◌<◌, ◌∷◌, true, false, List, length, IfOk, MatchOption};
ghost use Rattle.std.specs.List.{AllByRecursion};
ghost use Rattle.sql_types.specs.declared.entry.BlockRecord.{BlockRecord};
ghost use Rattle.format_entry.specs.Record.{IsRecord};
ghost use Rattle.audit_extract.specs.Collisions.{CollideBetween, IsRecordAmong};
ghost use Rattle.format_receipt.specs.Receipts.{IsReceipt};
ghost use Rattle.audit_receipt.specs.Accepted.{Accepted, LeadTo};
ghost use Rattle.audit_receipt.specs.Settles.{Settles};

use crate::leaves::entry_leaf;
use crate::settled::Settled;
use audit_extract::{Collision, bytes_of_both, is_same_record, record_at};
use audit_paths::find_in_paths;
use base_merkle::Hash32;
use base_types::Memory;
use format_receipt::Receipt;
use sql_types::{BlockRecord, HeldDigest};
use std::alloc::Global;

/// Whether two receipts of one place, both accepted with one digest, have one entry; where they don't, two
/// different byte strings with one hash, of which one is hashed where the first receipt is checked and the other
/// where the second is. The records are walked down from the digest's block, and then the two paths from the root
/// to the leaves, until the bytes that were hashed differ.
pub fn settle<H: Hash32>(
    alloc: Global,
    h: H,
    a: &Receipt,
    b: &Receipt,
    digest: &HeldDigest,
) -> Result<Settled, Memory>
    requires first { IsReceipt a.now }
    requires second { IsReceipt b.now }
    requires first_accepted { Accepted (H.digest h) a.now digest.now }
    requires second_accepted { Accepted (H.digest h) b.now digest.now }
    requires block { a.now.entry.block ≡ b.now.entry.block }
    requires ordinal { a.now.entry.ordinal ≡ b.now.entry.ordinal }
    ensures { IfOk result (Settles (H.digest h) a.now b.now) }
{
    let a_leaf = entry_leaf(alloc, &a.entry)?;
    let b_leaf = entry_leaf(alloc, &b.entry)?;
    if is_equal(a_leaf.bytes(), b_leaf.bytes()) {
        return Ok(Settled::Same);
    }
    let a_records = a.records.as_slice();
    let b_records = b.records.as_slice();
    if let Some(collision) = find_in_records(
        alloc,
        h,
        a_records,
        b_records,
        a.entry.block,
        digest,
    )? {
        return Ok(Settled::Collision(collision));
    }
    let collision = find_in_paths(
        alloc,
        h,
        a.entry.ordinal as usize,
        first_size(a_records) as usize,
        (a_leaf.bytes(), a.path.as_slice()),
        (b_leaf.bytes(), b.path.as_slice()),
    )?;
    Ok(Settled::Collision(collision))
}

fn is_equal(a: &[u8], b: &[u8]) -> bool
    ensures same { result ≡ true → a.now ≡ b.now }
    ensures differ { result ≡ false → a.now ≢ b.now }
{
    a == b
}

fn first_size(records: &[BlockRecord]) -> u64
    requires { 0 < length records.now }
    ensures { (r : BlockRecord) (rs : List BlockRecord) → records.now ≡ r ∷ rs → result ≡ r.size }
{
    records[0].size
}

// The bytes of the last two records that differ, of those that lead from one block to one digest.
fn find_in_records<H: Hash32>(
    alloc: Global,
    h: H,
    a: &[BlockRecord],
    b: &[BlockRecord],
    from: u64,
    digest: &HeldDigest,
) -> Result<Option<Collision>, Memory>
    requires a_fit { AllByRecursion IsRecord a.now }
    requires b_fit { AllByRecursion IsRecord b.now }
    requires a_leads { LeadTo (H.digest h) from a.now digest.now }
    requires b_leads { LeadTo (H.digest h) from b.now digest.now }
    ensures { IfOk result (λ found. MatchOption found (a.now ≡ b.now)
        (CollideBetween (H.digest h) (IsRecordAmong a.now) (IsRecordAmong b.now))) }
{
    let mut at = a.len();
    while at > 0 {
        at -= 1;
        let x = record_at(a, at);
        let y = record_at(b, at);
        if !is_same_record(x, y) {
            return Ok(Some(bytes_of_both(alloc, x, y)?));
        }
    }
    Ok(None)
}
