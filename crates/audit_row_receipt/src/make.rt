//! The receipts of rows that an image gives.

ghost use Rattle.std.specs.Prelude.{◌≡◌, ◌<◌, None, Err, length, IfOk};
ghost use Rattle.format_image.specs.ImageBytes.{IsImage};
ghost use Rattle.spec_verify.specs.Blocks.{block_fault, chain_fault};
ghost use Rattle.audit_receipt.specs.declared.receipt_err.ReceiptErr.TheVariants as errors;
ghost use Rattle.audit_row_receipt.specs.RowsMade.{HasNoRow, HasNoTable, IsMadeRow, IsMadeTable};

use crate::numbers::{leaf_at, place_of};
use audit_extract::leaves_in;
use audit_paths::audit_steps;
use audit_receipt::{ReceiptErr, make_receipt};
use base_merkle::Hash32;
use base_types::{Items, TableId, TxId};
use format_row_receipt::{RowReceipt, TableReceipt};
use sql_types::Image;
use std::alloc::Global;

/// The receipt of all events of a transaction in a table under the digest of a block. `NoEntry` exactly where no
/// entry up to this block is of the transaction, or it has no event in the table. Takes the time of sorting all events
/// of the image.
pub fn make_table_receipt<H: Hash32>(
    alloc: Global,
    h: H,
    image: &Image,
    tx: TxId,
    table: TableId,
    block: u64,
) -> Result<TableReceipt, ReceiptErr>
    requires image { IsImage image.now }
    requires chain { chain_fault (H.digest h) image.now ≡ None }
    requires blocks { block_fault (H.digest h) image.now ≡ None }
    requires block { block < length image.now.blocks }
    ensures made { IfOk result (IsMadeTable (H.digest h) image.now tx table block) }
    ensures none { result ≡ Err errors.NoEntry → HasNoTable image.now tx table block }
{
    let receipt = make_receipt(alloc, h, image, tx, block)?;
    let leaves = Items::from_vec(leaves_in(alloc, image, tx, table)?);
    if leaves.is_empty() {
        return Err(ReceiptErr::NoEntry);
    }
    Ok(TableReceipt { receipt, leaves })
}

/// The receipt of one event of a transaction in a table, that with this number in the transaction, under the digest of
/// a block. `NoEntry` exactly where no entry up to this block is of the transaction, or it has no such event in the
/// table. Takes the time of sorting all events of the image.
pub fn make_row_receipt<H: Hash32>(
    alloc: Global,
    h: H,
    image: &Image,
    tx: TxId,
    table: TableId,
    seq: u64,
    block: u64,
) -> Result<RowReceipt, ReceiptErr>
    requires image { IsImage image.now }
    requires chain { chain_fault (H.digest h) image.now ≡ None }
    requires blocks { block_fault (H.digest h) image.now ≡ None }
    requires block { block < length image.now.blocks }
    ensures made { IfOk result (IsMadeRow (H.digest h) image.now tx table seq block) }
    ensures none { result ≡ Err errors.NoEntry → HasNoRow image.now tx table seq block }
{
    let receipt = make_receipt(alloc, h, image, tx, block)?;
    let leaves = leaves_in(alloc, image, tx, table)?;
    match place_of(alloc, seq, &leaves)? {
        Some(place) => {
            let leaf = leaf_at(&leaves, place).copy()?;
            let steps = audit_steps(alloc, h, place, &leaves)?;
            Ok(RowReceipt {
                receipt,
                leaf,
                steps,
            })
        }
        None => Err(ReceiptErr::NoEntry),
    }
}
