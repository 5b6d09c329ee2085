//! Reading the bytes of a receipt.

ghost use Rattle.std.specs.Prelude.{◌≡◌, Some, IfOk, IfSome};
ghost use Rattle.base_fields.specs.Readers.{times};
ghost use Rattle.base_fields.specs.Readers as bytes_of;
ghost use Rattle.base_fields.specs.Reading.{Finds, ReadsAs};
ghost use Rattle.format_entry.specs.Record.{record_at};
ghost use Rattle.format_receipt.specs.declared.receipt.Receipt.{Receipt};
ghost use Rattle.format_receipt.specs.Receipts.{IsReceipt};
ghost use Rattle.format_receipt.specs.Receipts.{receipt_bytes};
ghost use Rattle.format_receipt.specs.ReceiptReading.{entry_behind, path_at, receipt_at, records_at};

use crate::receipt::Receipt;
use base_fields::{ReadError, database_at, hash_at, literal, long_at, u8_at, u64_at, whole};
use base_types::{Hash, Items, Memory};
use format_entry::{BlockRecord, TxEntry, read_entry};
use std::alloc::Global;

/// The receipt whose bytes these are, all of them, or None exactly where they are those of none.
pub fn read_receipt(alloc: Global, bytes: &[u8]) -> Result<Option<Receipt>, Memory>
    ensures found { IfOk result (λ read. IfSome read (λ r. IsReceipt r × (bytes.now ≡ receipt_bytes r))) }
    ensures only { (r : Receipt) → IsReceipt r → bytes.now ≡ receipt_bytes r
        → IfOk result (λ read. read ≡ Some r) }
{
    let found = whole(receipt_at(alloc, bytes))?;
    Ok(found)
}

#[tactic(auto, unfolding(crate::specs::ReceiptReading::receipt_at))]
fn receipt_at(alloc: Global, bytes: &[u8]) -> Result<(Receipt, &[u8]), ReadError>
    ensures { ReadsAs (λ x. (x.0, x.1.now)) result (receipt_at bytes.now) }
{
    let rest = literal(b"LGRC", bytes)?;
    let rest = literal(&[1], rest)?;
    let (database, rest) = database_at(alloc, rest)?;
    let (entry, rest) = entry_behind(alloc, rest)?;
    let (path, rest) = path_at(alloc, rest)?;
    let (records, rest) = records_at(alloc, rest)?;
    let receipt = Receipt {
        database,
        entry,
        path,
        records,
    };
    Ok((receipt, rest))
}

/// The entry behind the length of its bytes.
#[tactic(auto, unfolding(crate::specs::ReceiptReading::entry_behind))]
pub fn entry_behind(alloc: Global, bytes: &[u8]) -> Result<(TxEntry, &[u8]), ReadError>
    ensures { ReadsAs (λ x. (x.0, x.1.now)) result (entry_behind bytes.now) }
{
    let (own, rest) = long_at(bytes)?;
    match read_entry(alloc, own)? {
        Some(entry) => Ok((entry, rest)),
        None => Err(ReadError::Malformed),
    }
}

/// At most 17 hashes of a path, behind their count in a byte.
#[tactic(auto, unfolding(crate::specs::ReceiptReading::path_at))]
pub fn path_at(alloc: Global, bytes: &[u8]) -> Result<(Items<Hash>, &[u8]), ReadError>
    ensures { ReadsAs (λ x. (x.0, x.1.now)) result (path_at bytes.now) }
{
    let (count, rest) = u8_at(bytes)?;
    let (path, rest) = some_hashes(alloc, count, rest)?;
    if path.len() > 17 {
        return Err(ReadError::Malformed);
    }
    Ok((path, rest))
}

fn some_hashes(alloc: Global, count: u8, bytes: &[u8]) -> Result<(Items<Hash>, &[u8]), ReadError>
    ensures { ReadsAs (λ x. (x.0, x.1.now)) result (times bytes_of.hash_at count bytes.now) }
{
    let mut path = Items::new(alloc);
    let mut rest = bytes;
    for _ in 0..count {
        let (hash, after) = hash_at(rest)?;
        path.push(hash)?;
        rest = after;
    }
    Ok((path, rest))
}

/// One record and more, behind their count in 8 bytes.
#[tactic(auto, unfolding(crate::specs::ReceiptReading::records_at))]
pub fn records_at(alloc: Global, bytes: &[u8]) -> Result<(Items<BlockRecord>, &[u8]), ReadError>
    ensures { ReadsAs (λ x. (x.0, x.1.now)) result (records_at bytes.now) }
{
    let (count, rest) = u64_at(bytes)?;
    let (records, rest) = some_records(alloc, count, rest)?;
    if records.is_empty() {
        return Err(ReadError::Malformed);
    }
    Ok((records, rest))
}

fn some_records(
    alloc: Global,
    count: u64,
    bytes: &[u8],
) -> Result<(Items<BlockRecord>, &[u8]), ReadError>
    ensures { ReadsAs (λ x. (x.0, x.1.now)) result (times record_at count bytes.now) }
{
    let mut records = Items::new(alloc);
    let mut rest = bytes;
    for _ in 0..count {
        let (record, after) = record_at(rest)?;
        records.push(record)?;
        rest = after;
    }
    Ok((records, rest))
}

#[tactic(auto, unfolding(format_entry::specs::Record::record_at))]
fn record_at(bytes: &[u8]) -> Result<(BlockRecord, &[u8]), ReadError>
    ensures { Finds (λ x. (x.0, x.1.now)) result (record_at bytes.now) }
{
    let (id, rest) = u64_at(bytes)?;
    let (root, rest) = hash_at(rest)?;
    let (size, rest) = u64_at(rest)?;
    let (previous, rest) = hash_at(rest)?;
    let record = BlockRecord {
        id,
        root,
        size,
        previous,
    };
    Ok((record, rest))
}
