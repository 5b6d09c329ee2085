//! The trees of entries: block by block, the entries of two images are the same,
//! or the trees give a collision.

ghost use Rattle.std.specs.Prelude.{◌≡◌, ◌<◌, ◌^◌, All, map, length, IfOk};
ghost use Rattle.std.specs.List.{AllByRecursion};
ghost use Rattle.base_merkle.specs.TreeHash.{tree_hash};
ghost use Rattle.format_entry.specs.Entry.{IsEntry, entry_bytes};
ghost use Rattle.spec_verify.specs.Covered.{entries_upto};
ghost use Rattle.audit_extract.specs.Finds.{Finds};
ghost use Rattle.audit_extract.specs.Meets.{Meets};
ghost use Rattle.audit_extract.specs.Parts.{blocks_to};
ghost use Rattle.audit_extract.specs.Strings.{AreAtNode, AreOfEntries, OfCollision};

use crate::found::ImageComparison;
use crate::trees::{are_same, find_in_trees};
use base_merkle::Hash32;
use base_types::{Blob, Memory, first_of};
use format_entry::write_entry;
use sql_types::{BlockRecord, HeldDigest, Image, TxEntry};
use std::alloc::Global;

/// Goes through the blocks that the digest covers, which are the same in both images, each with its entries.
pub(crate) fn in_blocks<H: Hash32>(
    alloc: Global,
    h: H,
    honest: &Image,
    suspect: &Image,
    digest: &HeldDigest,
) -> Result<ImageComparison, Memory>
    requires honest { Meets (H.digest h) honest.now digest.now }
    requires suspect { Meets (H.digest h) suspect.now digest.now }
    requires same { blocks_to honest.now digest.now.block ≡ blocks_to suspect.now digest.now.block }
    ensures finds { IfOk result (Finds (H.digest h)
        (entries_upto honest.now digest.now.block ≡ entries_upto suspect.now digest.now.block)) }
    ensures strings { IfOk result (OfCollision (AreOfEntries (H.digest h) honest.now suspect.now)) }
{
    let mut rest = covered_blocks(honest, digest.block);
    let mut a = honest.entries.as_slice();
    let mut b = suspect.entries.as_slice();
    'each: while let Some((block, more)) = first_of(rest) {
        let (a_here, a_more) = a.split_at(block.size as usize);
        let (b_here, b_more) = b.split_at(block.size as usize);
        if let ImageComparison::Collision(found) = in_block(alloc, h, a_here, b_here)? {
            return Ok(ImageComparison::Collision(found));
        }
        rest = more;
        a = a_more;
        b = b_more;
    }
    Ok(ImageComparison::Same)
}

/// The blocks up to this one.
pub(crate) fn covered_blocks(image: &Image, block: u64) -> &[BlockRecord]
    requires { block < length image.now.blocks }
    ensures { result.now ≡ blocks_to image.now block }
{
    &image.blocks.as_slice()[..block as usize + 1]
}

// The entries of one block.
fn in_block<H: Hash32>(
    alloc: Global,
    h: H,
    a: &[TxEntry],
    b: &[TxEntry],
) -> Result<ImageComparison, Memory>
    requires fit_a { AllByRecursion IsEntry a.now }
    requires fit_b { AllByRecursion IsEntry b.now }
    requires root { tree_hash (H.digest h) (map entry_bytes a.now)
        ≡ tree_hash (H.digest h) (map entry_bytes b.now) }
    ensures finds { IfOk result (Finds (H.digest h) (a.now ≡ b.now)) }
    ensures strings { IfOk result (OfCollision
        (AreAtNode (H.digest h) (map entry_bytes a.now) (map entry_bytes b.now))) }
{
    let first = entry_leaves(alloc, a)?;
    let second = entry_leaves(alloc, b)?;
    if are_same(&first, &second) {
        return Ok(ImageComparison::Same);
    }
    Ok(ImageComparison::Collision(find_in_trees(alloc, h, &first, &second)?))
}

fn entry_leaves(alloc: Global, entries: &[TxEntry]) -> Result<Vec<Blob>, Memory>
    requires { All IsEntry entries.now }
    ensures { IfOk result (λ leaves. leaves.items ≡ map entry_bytes entries.now) }
{
    let mut leaves = Vec::new(alloc);
    for entry in entries {
        leaves.push(entry_leaf(alloc, entry)?)?;
    }
    Ok(leaves)
}

fn entry_leaf(alloc: Global, entry: &TxEntry) -> Result<Blob, Memory>
    requires { IsEntry entry.now }
    ensures { IfOk result (λ leaf. leaf ≡ entry_bytes entry.now) }
{
    let mut bytes = Vec::new(alloc);
    write_entry(entry, &mut bytes)?;
    Ok(Blob::from_vec(bytes))
}
