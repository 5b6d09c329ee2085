//! The receipt that an image gives of a transaction.

ghost use Rattle.std.specs.Prelude.{◌≡◌, ◌≤◌, ◌<◌, ◌+◌, None, Err, All, map, length, take, drop, IfOk};
ghost use Rattle.std.specs.List.{AllByRecursion};
ghost use Rattle.std.specs.Option.{option_copied};
ghost use Rattle.format_entry.specs.Entry.{IsEntry, entry_bytes};
ghost use Rattle.audit_extract.specs.Parts.{blocks_to};
ghost use Rattle.spec_verify.specs.ImageBytes.{IsImage};
ghost use Rattle.spec_verify.specs.Blocks.{block_fault, chain_fault};
ghost use Rattle.audit_paths.specs.Path.{audit_path};
ghost use Rattle.audit_receipt.specs.declared.receipt_err.ReceiptErr.TheVariants as errors;
ghost use Rattle.audit_receipt.specs.Made.{HasNone, IsMade, entry_of, part_at, receipt_of};

use crate::leaves::entry_leaves;
use crate::receipt_err::ReceiptErr;
use audit_paths::audit_path;
use base_merkle::Hash32;
use base_types::{Hash, Items, Memory, TxId, first_of};
use format_receipt::Receipt;
use sql_types::{BlockRecord, Image, TxEntry};
use std::alloc::Global;

/// The receipt of a transaction under the digest of a block. `NoEntry` exactly where no entry up to this block
/// is of the transaction.
pub fn make_receipt<H: Hash32>(
    alloc: Global,
    h: H,
    image: &Image,
    tx: TxId,
    block: u64,
) -> Result<Receipt, ReceiptErr>
    requires image { IsImage image.now }
    requires chain { chain_fault (H.digest h) image.now ≡ None }
    requires blocks { block_fault (H.digest h) image.now ≡ None }
    requires block { block < length image.now.blocks }
    ensures made { IfOk result (IsMade (H.digest h) image.now tx block) }
    ensures none { result ≡ Err errors.NoEntry → HasNone image.now tx block }
{
    match entry_of(image.entries.as_slice(), tx, block) {
        Some(entry) => {
            let receipt = receipt_of(alloc, h, image, entry, block)?;
            Ok(receipt)
        }
        None => Err(ReceiptErr::NoEntry),
    }
}
// The first entry of a transaction that isn't behind a block.
fn entry_of(entries: &[TxEntry], tx: TxId, block: u64) -> Option<&TxEntry>
    ensures { option_copied result ≡ entry_of tx block entries.now }
{
    for entry in entries {
        if entry.id == tx && entry.block <= block {
            return Some(entry);
        }
    }
    None
}

fn receipt_of<H: Hash32>(
    alloc: Global,
    h: H,
    image: &Image,
    entry: &TxEntry,
    block: u64,
) -> Result<Receipt, Memory>
    requires within { entry.now.block ≤ block }
    requires block { block < length image.now.blocks }
    requires fit { AllByRecursion IsEntry (part_at image.now.blocks image.now.entries entry.now.block) }
    ensures { IfOk result (λ r. r ≡ receipt_of (H.digest h) image.now entry.now block) }
{
    let part = part_at(
        image.blocks.as_slice(),
        image.entries.as_slice(),
        entry.block,
    );
    let path = path_in(alloc, h, part, entry.ordinal)?;
    let records = records_from(alloc, image, entry.block, block)?;
    let database = image.database.copy()?;
    let entry = copied(alloc, entry)?;
    Ok(Receipt {
        database,
        entry,
        path,
        records,
    })
}

// The entries of a block.
fn part_at<'a>(blocks: &[BlockRecord], entries: &'a [TxEntry], block: u64) -> &'a [TxEntry]
    ensures { result.now ≡ part_at blocks.now entries.now block }
{
    let mut blocks = blocks;
    let mut entries = entries;
    let mut left = block;
    'each: while let Some((first, more)) = first_of(blocks) {
        let (here, after) = parted(entries, first.size);
        if left == 0 {
            return here;
        }
        left -= 1;
        blocks = more;
        entries = after;
    }
    &[]
}

// So many entries, or all, and those behind them.
fn parted(entries: &[TxEntry], count: u64) -> (&[TxEntry], &[TxEntry])
    ensures front { result.0.now ≡ take count entries.now }
    ensures back { result.1.now ≡ drop count entries.now }
{
    if count < entries.len() as u64 {
        entries.split_at(count as usize)
    } else {
        entries.split_at(entries.len())
    }
}

fn path_in<H: Hash32>(
    alloc: Global,
    h: H,
    part: &[TxEntry],
    place: u64,
) -> Result<Items<Hash>, Memory>
    requires { All IsEntry part.now }
    ensures { IfOk result (λ path. path ≡ audit_path (H.digest h) place (map entry_bytes part.now)) }
{
    let leaves = entry_leaves(alloc, part)?;
    audit_path(alloc, h, place as usize, &leaves)
}

/// The records of the blocks of an image from one to another.
pub fn records_from(
    alloc: Global,
    image: &Image,
    from: u64,
    block: u64,
) -> Result<Items<BlockRecord>, Memory>
    requires within { from ≤ block }
    requires block { block < length image.now.blocks }
    ensures { IfOk result (λ records. records ≡ drop from (blocks_to image.now block)) }
{
    let (covered, _) = image.blocks.as_slice().split_at(block as usize + 1);
    let (_, records) = covered.split_at(from as usize);
    Ok(Items::from_vec(Vec::from_slice(alloc, records)?))
}

fn copied(alloc: Global, entry: &TxEntry) -> Result<TxEntry, Memory>
    ensures { IfOk result (λ copy. copy ≡ entry.now) }
{
    Ok(TxEntry {
        id: entry.id,
        block: entry.block,
        ordinal: entry.ordinal,
        time: entry.time,
        principal: entry.principal.copy()?,
        roots: Items::from_vec(Vec::from_slice(alloc, entry.roots.as_slice())?),
    })
}
