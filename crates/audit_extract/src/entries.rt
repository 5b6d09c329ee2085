//! The trees of leaves: entry by entry and table by table, the events of two images are the same, or the
//! trees give a collision.

ghost use Rattle.std.specs.Prelude.{◌≡◌, ◌≤◌, ◌<◌, ◌+◌, ℕ, IsSorted, IfOk, length};
ghost use Rattle.std.specs.List.{AllByRecursion, sum_by};
ghost use Rattle.base_merkle.specs.TreeHash.{tree_hash};
ghost use Rattle.spec_verify.specs.Blocks.{entries_before};
ghost use Rattle.spec_verify.specs.Covered.{covered_of, entries_upto};
ghost use Rattle.audit_extract.specs.Finds.{Finds};
ghost use Rattle.audit_extract.specs.Leaves.{HasRoots, IsRooted, SameTree, SameTrees, leaf_cmp, tree_of};
ghost use Rattle.audit_extract.specs.Meets.{Meets};
ghost use Rattle.audit_extract.specs.Strings.{AreAtNode, AreOfEvents, OfCollision};

use crate::blocks::covered_blocks;
use crate::found::ImageComparison;
use crate::leaves::{Leaf, copied, leaves_of, same_bytes, sorted_leaves};
use crate::trees::find_in_trees;
use base_merkle::Hash32;
use base_types::{Hash, Memory, TableId, TxId};
use format_event::equal_leaves_are_of_equal_events;
use sql_types::{BlockRecord, HeldDigest, Image, TxEntry};
use std::alloc::Global;

/// Goes through the entries that the digest covers, which are the same in both images, each with its events.
pub(crate) fn in_entries<H: Hash32>(
    alloc: Global,
    h: H,
    honest: &Image,
    suspect: &Image,
    digest: &HeldDigest,
) -> Result<ImageComparison, Memory>
    requires honest { Meets (H.digest h) honest.now digest.now }
    requires suspect { Meets (H.digest h) suspect.now digest.now }
    requires same { entries_upto honest.now digest.now.block ≡ entries_upto suspect.now digest.now.block }
    ensures finds { IfOk result (Finds (H.digest h)
        (covered_of honest.now digest.now.block ≡ covered_of suspect.now digest.now.block)) }
    ensures strings { IfOk result (OfCollision (AreOfEvents (H.digest h) honest.now suspect.now)) }
{
    let a = sorted_leaves(alloc, honest)?;
    let b = sorted_leaves(alloc, suspect)?;
    let entries = covered_entries(honest, digest.block);
    // Leaves tell events apart: that the law says.
    equal_leaves_are_of_equal_events();
    in_trees(alloc, h, &a, &b, entries)
}

// The entries of the blocks up to this one.
fn covered_entries(image: &Image, block: u64) -> &[TxEntry]
    requires block { block < length image.now.blocks }
    requires entries { entries_before image.now (block + 1) ≤ length image.now.entries }
    ensures { result.now ≡ entries_upto image.now block }
{
    let count = entry_count(covered_blocks(image, block), image.entries.len());
    let (covered, _) = image.entries.as_slice().split_at(count);
    covered
}

// How many entries some blocks have, which are at most so many.
fn entry_count(blocks: &[BlockRecord], most: usize) -> usize
    requires { sum_by (λ block. block.size) blocks.now ≤ most }
    ensures { result ≡ sum_by (λ block. block.size) blocks.now }
{
    let mut count = 0;
    for block in blocks {
        count += block.size as usize;
    }
    count
}

fn in_trees<H: Hash32>(
    alloc: Global,
    h: H,
    a: &[Leaf],
    b: &[Leaf],
    entries: &[TxEntry],
) -> Result<ImageComparison, Memory>
    requires sorted_a { IsSorted leaf_cmp a.now }
    requires sorted_b { IsSorted leaf_cmp b.now }
    requires roots_a { AllByRecursion (HasRoots (H.digest h) a.now) entries.now }
    requires roots_b { AllByRecursion (HasRoots (H.digest h) b.now) entries.now }
    ensures finds { IfOk result
        (Finds (H.digest h) (AllByRecursion (SameTrees a.now b.now) entries.now)) }
    ensures strings { IfOk result (OfCollision (λ c. (group : ℕ × ℕ)
        × AreAtNode (H.digest h) (tree_of a.now group) (tree_of b.now group) c)) }
{
    let mut rest = entries;
    while let [entry, more @ ..] = rest {
        if let ImageComparison::Collision(found) = in_tables(
            alloc,
            h,
            a,
            b,
            entry.id,
            entry.roots.as_slice(),
        )? {
            return Ok(ImageComparison::Collision(found));
        }
        rest = more;
    }
    Ok(ImageComparison::Same)
}

// The tables of one transaction.
fn in_tables<H: Hash32>(
    alloc: Global,
    h: H,
    a: &[Leaf],
    b: &[Leaf],
    tx: TxId,
    roots: &[(TableId, Hash)],
) -> Result<ImageComparison, Memory>
    requires sorted_a { IsSorted leaf_cmp a.now }
    requires sorted_b { IsSorted leaf_cmp b.now }
    requires roots_a { AllByRecursion (IsRooted (H.digest h) a.now tx) roots.now }
    requires roots_b { AllByRecursion (IsRooted (H.digest h) b.now tx) roots.now }
    ensures finds { IfOk result
        (Finds (H.digest h) (AllByRecursion (SameTree a.now b.now tx) roots.now)) }
    ensures strings { IfOk result (OfCollision (λ c. (group : ℕ × ℕ)
        × AreAtNode (H.digest h) (tree_of a.now group) (tree_of b.now group) c)) }
{
    let mut rest = roots;
    while let [(table, _), more @ ..] = rest {
        if let ImageComparison::Collision(found) = in_table(alloc, h, a, b, (tx, *table))? {
            return Ok(ImageComparison::Collision(found));
        }
        rest = more;
    }
    Ok(ImageComparison::Same)
}

// One tree of leaves.
fn in_table<H: Hash32>(
    alloc: Global,
    h: H,
    a: &[Leaf],
    b: &[Leaf],
    group: (TxId, TableId),
) -> Result<ImageComparison, Memory>
    requires sorted_a { IsSorted leaf_cmp a.now }
    requires sorted_b { IsSorted leaf_cmp b.now }
    requires root { tree_hash (H.digest h) (tree_of a.now group)
        ≡ tree_hash (H.digest h) (tree_of b.now group) }
    ensures finds { IfOk result (Finds (H.digest h) (tree_of a.now group ≡ tree_of b.now group)) }
    ensures strings { IfOk result (OfCollision
        (AreAtNode (H.digest h) (tree_of a.now group) (tree_of b.now group))) }
{
    let x = leaves_of(a, group);
    let y = leaves_of(b, group);
    if same_bytes(x, y) {
        return Ok(ImageComparison::Same);
    }
    let first = copied(alloc, x)?;
    let second = copied(alloc, y)?;
    Ok(ImageComparison::Collision(find_in_trees(alloc, h, &first, &second)?))
}
