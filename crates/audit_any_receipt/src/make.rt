//! The receipts that an image gives which is accepted with digests.

ghost use Rattle.std.specs.Prelude.{◌≡◌, ◌≤◌, ◌<◌, None, Err, length, IfOk};
ghost use Rattle.format_image.specs.ImageBytes.{IsImage};
ghost use Rattle.spec_verify.specs.Blocks.{block_fault, chain_fault};
ghost use Rattle.spec_verify.specs.Verdict.{image_verdict};
ghost use Rattle.audit_receipt.specs.declared.receipt_err.ReceiptErr.TheVariants as errors;
ghost use Rattle.audit_any_receipt.specs.Wanted.{HasNoneFor, HasNoneUnder, IsMadeFor, IsReceiptUnder, least_to};

use crate::any::AnyReceipt;
use audit_chain::join;
use audit_extract::last_of;
use audit_receipt::{ReceiptErr, make_receipt};
use audit_row_receipt::{make_row_receipt, make_table_receipt};
use base_merkle::Hash32;
use base_types::{TableId, TxId};
use spec_verify::Verdict;
use sql_types::{HeldDigest, Image};
use std::alloc::Global;

/// What a receipt is wanted of.
#[derive(Clone, Copy, Debug, PartialEq, Eq)]
pub enum Wanted {
    /// Of the transaction with this id.
    Entry(TxId),
    /// Of all of its events in a table.
    Table(TxId, TableId),
    /// Of the one of these with this number.
    Event(TxId, TableId, u64),
    /// Of the digests: that the newest continues the histories of the others.
    Chain,
}

/// The receipt that an accepted image gives under the digest of the greatest block, the first of these, with which it
/// is accepted. `NoEntry` exactly where there is no digest, no entry up to its block is of the transaction, or this
/// has no such event.
pub fn make_any<H: Hash32>(
    alloc: Global,
    h: H,
    image: &Image,
    held: &[HeldDigest],
    wanted: Wanted,
) -> Result<AnyReceipt, ReceiptErr>
    requires image { IsImage image.now }
    requires accepted { image_verdict (H.digest h) image.now held.now ≡ Verdict.Yes }
    ensures made { IfOk result (IsReceiptUnder (H.digest h) image.now held.now wanted) }
    ensures none { result ≡ Err errors.NoEntry → HasNoneUnder image.now held.now wanted }
{
    let Some(newest) = last_of(held) else {
        return Err(ReceiptErr::NoEntry);
    };
    let block = newest.block;
    make_under(alloc, h, image, wanted, least_to(block, held), block)
}

// The receipt under the digest of a block; a chain begins with another.
fn make_under<H: Hash32>(
    alloc: Global,
    h: H,
    image: &Image,
    wanted: Wanted,
    from: u64,
    block: u64,
) -> Result<AnyReceipt, ReceiptErr>
    requires image { IsImage image.now }
    requires chain { chain_fault (H.digest h) image.now ≡ None }
    requires blocks { block_fault (H.digest h) image.now ≡ None }
    requires from { from ≤ block }
    requires block { block < length image.now.blocks }
    ensures made { IfOk result (IsMadeFor (H.digest h) image.now wanted from block) }
    ensures none { result ≡ Err errors.NoEntry → HasNoneFor image.now wanted block }
{
    match wanted {
        Wanted::Entry(tx) => {
            let receipt = make_receipt(alloc, h, image, tx, block)?;
            Ok(AnyReceipt::Entry(receipt))
        }
        Wanted::Table(tx, table) => {
            let receipt = make_table_receipt(alloc, h, image, tx, table, block)?;
            Ok(AnyReceipt::Table(receipt))
        }
        Wanted::Event(tx, table, seq) => {
            let receipt = make_row_receipt(alloc, h, image, tx, table, seq, block)?;
            Ok(AnyReceipt::Event(receipt))
        }
        Wanted::Chain => {
            let chain = join(alloc, image, from, block)?;
            Ok(AnyReceipt::Chain(chain))
        }
    }
}

// The least of a block and of those of digests.
fn least_to(block: u64, held: &[HeldDigest]) -> u64
    ensures is { result ≡ least_to block held.now }
    ensures within { result ≤ block }
{
    let mut least = block;
    for digest in held {
        if digest.block < least {
            least = digest.block;
        }
    }
    least
}
