//! The digests, the chain of the blocks, and the roots of their entries.

ghost use Rattle.std.specs.Prelude.{◌≡◌, ◌<◌, ◌≤◌, ◌+◌, ◌∷◌, ℕ, List, true, length, drop, IfOk, IfSome, None};
ghost use Rattle.std.specs.Thread.{IsSend, IsSync};
ghost use Rattle.format_image.specs.ImageBytes.{IsImage};
ghost use Rattle.spec_ledger.specs.Blocks.{no_hash};
ghost use Rattle.spec_verify.specs.Blocks as spec;
ghost use Rattle.audit_verify.specs.BlockParts.{faulty_block};

use crate::merged::first_of_two;
use base_merkle::Hash32;
use base_types::{Hash, Memory};
use format_entry::block_hash;
use format_image::Image;
use format_roots::entries_root;
use spec_verify::Place;
use sql_types::{BlockRecord, HeldDigest, MAX_BLOCK};
use std::alloc::Global;
use std::thread::{Threads, join};

/// The first digest that isn't of a block of the image.
#[tactic(auto, unfolding(spec_verify::specs::Blocks::digest_fault))]
pub(crate) fn digest_fault<H: Hash32>(
    hasher: H,
    image: &Image,
    digests: &[HeldDigest],
) -> Option<Place>
    ensures { result ≡ spec.digest_fault (H.digest hasher) image.now digests.now }
{
    for (k, digest) in digests.iter().enumerate() {
        if !digest_holds(hasher, image, digest) {
            return Some(Place::Digest(k as u64));
        }
    }
    None
}

fn digest_holds<H: Hash32>(hasher: H, image: &Image, digest: &HeldDigest) -> bool
    ensures { result ≡ spec.digest_holds (H.digest hasher) image.now digest.now }
{
    let blocks = image.blocks.as_slice();
    let at = digest.block as usize;
    digest.database == image.database
        && at < blocks.len()
        && digest.hash == block_hash(hasher, block_at(blocks, at))
}

fn block_at(blocks: &[BlockRecord], at: usize) -> &BlockRecord
    requires { at < length blocks.now }
    ensures { drop at blocks.now ≡ result.now ∷ drop (at + 1) blocks.now }
{
    &blocks[at]
}

/// The first block that isn't linked to the one before it.
#[tactic(auto, unfolding(spec_verify::specs::Blocks::chain_fault))]
pub(crate) fn chain_fault<H: Hash32>(hasher: H, image: &Image) -> Option<Place>
    ensures { result ≡ spec.chain_fault (H.digest hasher) image.now }
{
    let mut before = no_hash();
    for (b, block) in image.blocks.as_slice().iter().enumerate() {
        if block.id != b as u64 || block.previous != before {
            return Some(Place::Block(b as u64));
        }
        before = block_hash(hasher, block);
    }
    None
}

fn no_hash() -> Hash
    ensures { result ≡ no_hash }
{
    [0; 32]
}

/// The first block that hasn't the size or the root of its entries.
/// The entries are hashed in order, each once; those of one block, and its nodes of one level, four at a time.
pub(crate) fn block_fault<H: Hash32>(
    alloc: Global,
    hasher: H,
    image: &Image,
) -> Result<Option<Place>, Memory>
    requires { IsImage image.now }
    ensures { IfOk result (λ place. place ≡ spec.block_fault (H.digest hasher) image.now) }
{
    block_fault_in(alloc, hasher, image, 0, image.blocks.len())
}

/// The same by so many threads.
pub(crate) fn block_fault_by<H: Hash32, R: Threads + Sync>(
    rt: &R,
    alloc: Global,
    hasher: H,
    image: &Image,
    workers: u32,
) -> Result<Option<Place>, Memory>
    requires { IsImage image.now }
    ensures { IfOk result (λ place. place ≡ spec.block_fault (H.digest hasher) image.now) }
{
    fault_by(rt, alloc, hasher, image, 0, image.blocks.len(), workers)
}

/// The first of so many blocks, from the one at place `from` on, that is at fault, by so many threads.
fn fault_by<H: Hash32, R: Threads + Sync>(
    rt: &R,
    alloc: Global,
    hasher: H,
    image: &Image,
    from: usize,
    count: usize,
    workers: u32,
) -> Result<Option<Place>, Memory>
    requires image { IsImage image.now }
    requires within { from + count ≤ length image.now.blocks }
    ensures { IfOk result (λ place. place ≡ faulty_block (H.digest hasher) image.now from count) }
{
    if workers <= 1 || count <= 1 {
        return block_fault_in(alloc, hasher, image, from, count);
    }
    let fewer = workers / 2;
    let others = workers - fewer;
    let front = (count / workers as usize)
        .saturating_mul(fewer as usize)
        .clamp(1, count - 1);
    let middle = from + front;
    let rest = count - front;
    let (first, second) = join(
        rt,
        || -> Result<Option<Place>, Memory>
            requires sync { IsSync R.row × IsSync H.row × IsSend H.row }
            requires image { IsImage image.now }
            requires within { from + front ≤ length image.now.blocks }
            ensures { IfOk result (λ place. place
                ≡ faulty_block (H.digest hasher) image.entry.now from front) }
        { fault_by(rt, alloc, hasher, image, from, front, fewer) },
        || -> Result<Option<Place>, Memory>
            requires sync { IsSync R.row × IsSync H.row × IsSend H.row }
            requires image { IsImage image.now }
            requires within { middle + rest ≤ length image.now.blocks }
            ensures { IfOk result (λ place. place
                ≡ faulty_block (H.digest hasher) image.entry.now middle rest) }
        { fault_by(rt, alloc, hasher, image, middle, rest, others) },
    );
    Ok(first_of_two(first?, second?))
}

fn block_fault_in<H: Hash32>(
    alloc: Global,
    hasher: H,
    image: &Image,
    from: usize,
    count: usize,
) -> Result<Option<Place>, Memory>
    requires image { IsImage image.now }
    requires within { from + count ≤ length image.now.blocks }
    ensures { IfOk result (λ place. place ≡ faulty_block (H.digest hasher) image.now from count) }
{
    let blocks = image.blocks.as_slice();
    let Some(counted) = entries_before(image, from) else {
        return Ok(first_outgrown(image, from, count));
    };
    let mut before = counted;
    for b in from..from + count {
        let block = block_at(blocks, b);
        if !block_holds(alloc, hasher, image, b, before, block)? {
            return Ok(Some(Place::Block(b as u64)));
        }
        before += block.size as usize;
    }
    Ok(None)
}

/// The first of so many blocks, before which more entries are counted than there are.
fn first_outgrown(image: &Image, from: usize, count: usize) -> Option<Place>
    requires within { from + count ≤ length image.now.blocks }
    requires many { length image.now.entries < spec.entries_before image.now from }
    ensures { (h : List ℕ → List ℕ) → result ≡ faulty_block h image.now from count }
{
    if count == 0 {
        return None;
    }
    Some(Place::Block(from as u64))
}

/// How many entries the blocks before this one count, unless these are more than there are.
fn entries_before(image: &Image, b: usize) -> Option<usize>
    requires { b ≤ length image.now.blocks }
    ensures some { IfSome result (λ n. n ≡ spec.entries_before image.now b) }
    ensures within { IfSome result (λ n. n ≤ length image.now.entries) }
    ensures none { result ≡ None → length image.now.entries < spec.entries_before image.now b }
{
    let most = image.entries.len();
    let blocks = &image.blocks.as_slice()[..b];
    let mut count = 0;
    for block in blocks {
        if block.size > (most - count) as u64 {
            return None;
        }
        count += block.size as usize;
    }
    Some(count)
}

// The entries before the block are so many.
fn block_holds<H: Hash32>(
    alloc: Global,
    hasher: H,
    image: &Image,
    b: usize,
    before: usize,
    block: &BlockRecord,
) -> Result<bool, Memory>
    requires image { IsImage image.now }
    requires block { drop b image.now.blocks ≡ block.now ∷ drop (b + 1) image.now.blocks }
    requires before { before ≡ spec.entries_before image.now b }
    requires within { before ≤ length image.now.entries }
    ensures holds { IfOk result (λ holds. holds ≡ spec.block_holds (H.digest hasher) image.now b block.now) }
    ensures within { IfOk result (λ holds. holds ≡ true
        → before + block.now.size ≤ length image.now.entries) }
{
    let entries = image.entries.as_slice();
    if block.size < 1 || u64::from(MAX_BLOCK) < block.size {
        return Ok(false);
    }
    let size = block.size as usize;
    if entries.len() - before < size {
        return Ok(false);
    }
    let root = entries_root(alloc, hasher, &entries[before..before + size])?;
    Ok(block.root == root)
}
