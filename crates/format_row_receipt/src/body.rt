//! What all receipts have behind the number of their format: the database, the entry, its path and the records.

ghost use Rattle.std.specs.Prelude.{◌≡◌, ◌++◌, OnOk};
ghost use Rattle.base_fields.specs.Reading.{ReadsAs};
ghost use Rattle.format_receipt.specs.Receipts.{IsReceipt};
ghost use Rattle.format_row_receipt.specs.RowReceipts.{body_bytes};
ghost use Rattle.format_row_receipt.specs.RowReading.{body_at};

use base_fields::{ReadError, database_at, put_short};
use base_types::Memory;
use format_receipt::{
    Receipt, entry_behind, path_at, put_entry, put_path, put_records, records_at,
};
use std::alloc::Global;

/// The receipt of the transaction at the front.
#[tactic(auto, unfolding(crate::specs::RowReading::body_at))]
pub(crate) fn body_at(alloc: Global, bytes: &[u8]) -> Result<(Receipt, &[u8]), ReadError>
    ensures { ReadsAs (λ x. (x.0, x.1.now)) result (body_at bytes.now) }
{
    let (database, rest) = database_at(alloc, bytes)?;
    let (entry, rest) = entry_behind(alloc, rest)?;
    let (path, rest) = path_at(alloc, rest)?;
    let (records, rest) = records_at(alloc, rest)?;
    let receipt = Receipt {
        database,
        entry,
        path,
        records,
    };
    Ok((receipt, rest))
}

/// Adds the receipt of the transaction.
pub(crate) fn put_body(alloc: Global, r: &Receipt, out: &mut Vec<u8>) -> Result<(), Memory>
    requires { IsReceipt r.now }
    ensures { OnOk result (out.new.items ≡ out.old.items ++ body_bytes r.now) }
{
    put_short(out, r.database.bytes())?;
    put_entry(alloc, &r.entry, out)?;
    put_path(r.path.as_slice(), out)?;
    put_records(r.records.as_slice(), out)
}
