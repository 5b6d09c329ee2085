//! Writing the bytes of a receipt.

ghost use Rattle.std.specs.Prelude.{◌≡◌, ◌<◌, ◌^◌, ◌++◌, flat_map, length, IfOk, OnOk};
ghost use Rattle.base_fields.specs.Fields.{hash_field, long_field};
ghost use Rattle.format_entry.specs.Entry.{IsEntry, entry_bytes};
ghost use Rattle.format_entry.specs.Record.{record_bytes};
ghost use Rattle.format_receipt.specs.Receipts.{IsReceipt};
ghost use Rattle.format_receipt.specs.Receipts.{path_bytes, receipt_bytes, records_bytes};

use crate::receipt::Receipt;
use base_fields::{put_hash, put_long, put_short, put_u8, put_u64};
use base_types::{Hash, Memory};
use format_entry::{BlockRecord, TxEntry, record_bytes, write_entry};
use std::alloc::Global;

/// The bytes of a receipt that has a spelling.
#[tactic(auto, unfolding(crate::specs::Receipts::receipt_bytes))]
pub fn write_receipt(alloc: Global, r: &Receipt) -> Result<Vec<u8>, Memory>
    requires { IsReceipt r.now }
    ensures { IfOk result (λ v. v.items ≡ receipt_bytes r.now) }
{
    let mut out = Vec::new(alloc);
    out.extend_from_slice(b"LGRC")?;
    put_u8(&mut out, 1)?;
    put_short(&mut out, r.database.bytes())?;
    put_entry(alloc, &r.entry, &mut out)?;
    put_path(r.path.as_slice(), &mut out)?;
    put_records(r.records.as_slice(), &mut out)?;
    Ok(out)
}

/// Adds the bytes of an entry behind their length.
pub fn put_entry(alloc: Global, entry: &TxEntry, out: &mut Vec<u8>) -> Result<(), Memory>
    requires entry { IsEntry entry.now }
    requires room { length (entry_bytes entry.now) < 2 ^ 32 }
    ensures { OnOk result (out.new.items ≡ out.old.items ++ long_field (entry_bytes entry.now)) }
{
    let mut bytes = Vec::new(alloc);
    write_entry(entry, &mut bytes)?;
    put_long(out, &bytes)
}

/// Adds how many hashes a path has, in a byte, and each of them.
pub fn put_path(path: &[Hash], out: &mut Vec<u8>) -> Result<(), Memory>
    requires { length path.now < 256 }
    ensures { OnOk result (out.new.items ≡ out.old.items ++ path_bytes path.now) }
{
    put_u8(out, path.len() as u8)?;
    put_hashes(path, out)
}

fn put_hashes(path: &[Hash], out: &mut Vec<u8>) -> Result<(), Memory>
    ensures { OnOk result (out.new.items ≡ out.old.items ++ flat_map hash_field path.now) }
{
    for hash in path {
        put_hash(out, hash)?;
    }
    Ok(())
}

/// Adds how many records there are, in 8 bytes, and each of them.
pub fn put_records(records: &[BlockRecord], out: &mut Vec<u8>) -> Result<(), Memory>
    ensures { OnOk result (out.new.items ≡ out.old.items ++ records_bytes records.now) }
{
    put_u64(out, records.len() as u64)?;
    put_each(records, out)
}

fn put_each(records: &[BlockRecord], out: &mut Vec<u8>) -> Result<(), Memory>
    ensures { OnOk result (out.new.items ≡ out.old.items ++ flat_map record_bytes records.now) }
{
    for record in records {
        out.extend_from_slice(&record_bytes(record))?;
    }
    Ok(())
}
