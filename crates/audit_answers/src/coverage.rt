//! What digests cover of an image.

ghost use Rattle.std.specs.Prelude.{ℕ, ◌≡◌, ◌+◌, ◌<◌, IfOk, IfSome, Some, length, min, slice_index, string_bytes, take};
ghost use Rattle.std.specs.List.{sum_by};
ghost use Rattle.audit_answers.specs.Covers.{IsImageJudged, IsJudged, coverage_of, coverage_text};
ghost use Rattle.audit_answers.specs.Covers.{blocks_text, entries_covered, newest_block};
ghost use Rattle.format_image.specs.ImageBytes.{IsImage, IsSpellingOf};
ghost use Rattle.spec_verify.specs.Covered.{entries_upto};

use audit_extract::last_of;
use audit_verify::verify_image_with_workers;
use base_merkle::Hash32;
use base_types::Memory;
use format_image::read_image;
use spec_verify::{Invariant, Place, Verdict};
use sql_types::{BlockRecord, HeldDigest, Image};
use std::alloc::{AllocError, Global};
use std::thread::Threads;

/// What digests cover of an image: the transactions of the blocks up to the greatest that a digest is of.
#[derive(Clone, Copy, Debug, PartialEq, Eq)]
pub struct Coverage {
    /// How many transactions they cover.
    pub covered: u64,
    /// How many transactions the image has.
    pub transactions: u64,
    /// The greatest block of a digest, if there is a digest.
    pub newest: Option<u64>,
    /// How many blocks the image has.
    pub blocks: u64,
}

/// What is judged of the bytes of an image.
#[derive(Drop)]
pub enum Judgement {
    /// The image is accepted with the digests, which cover this of it.
    Accepted(Coverage),
    /// It isn't, and this is the verdict.
    Refused(Verdict),
}

/// What these digests cover of an image. It takes no memory, and the time of counting the blocks.
pub fn coverage_of(image: &Image, digests: &[HeldDigest]) -> Coverage
    ensures { result ≡ coverage_of image.now digests.now }
{
    let newest = newest_block(digests);
    Coverage {
        covered: count_covered(image, newest),
        transactions: image.entries.len() as u64,
        newest,
        blocks: image.blocks.len() as u64,
    }
}

/// The greatest block of a digest, if there is a digest.
fn newest_block(digests: &[HeldDigest]) -> Option<u64>
    ensures { result ≡ newest_block digests.now }
{
    match last_of(digests) {
        Some(digest) => Some(digest.block),
        None => None,
    }
}

fn count_covered(image: &Image, newest: Option<u64>) -> u64
    ensures { result ≡ length (entries_covered image.now newest) }
{
    match newest {
        Some(block) => count_upto(image, block),
        None => 0,
    }
}

/// How many entries stand in the blocks up to this one.
fn count_upto(image: &Image, block: u64) -> u64
    ensures { result ≡ length (entries_upto image.now block) }
{
    let blocks = blocks_upto(image.blocks.as_slice(), block);
    size_within(blocks, image.entries.len() as u64)
}

/// The blocks up to this one, or all where there are no more.
fn blocks_upto(blocks: &[BlockRecord], block: u64) -> &[BlockRecord]
    ensures { result.now ≡ take (block + 1) blocks.now }
{
    if block < blocks.len() as u64 {
        blocks.split_at(block as usize + 1).0
    } else {
        blocks
    }
}

/// How many entries some blocks have, or the most that there are where the blocks say more.
fn size_within(blocks: &[BlockRecord], most: u64) -> u64
    ensures { result ≡ min (sum_by (λ block. block.size) blocks.now) most }
{
    let mut count = 0;
    for block in blocks {
        if block.size > most - count {
            return most;
        }
        count += block.size;
    }
    count
}

/// The blocks up to one of so many, in words.
fn some_blocks_text(alloc: Global, newest: u64, blocks: u64) -> Result<String, AllocError>
    ensures { IfOk result (λ text. string_bytes text ≡ blocks_text (Some newest) blocks) }
{
    format!(in alloc; "blocks 0 to {newest} of {blocks}")
}

/// The blocks that are covered, in words.
fn blocks_text(alloc: Global, newest: Option<u64>, blocks: u64) -> Result<String, AllocError>
    ensures { IfOk result (λ text. string_bytes text ≡ blocks_text newest blocks) }
{
    match newest {
        Some(newest) => some_blocks_text(alloc, newest, blocks),
        None => format!(in alloc; "no block of {blocks}"),
    }
}

/// What is covered, in words, as `covers 16 of 22 transactions, blocks 0 to 3 of 5`.
pub fn coverage_text(alloc: Global, coverage: Coverage) -> Result<String, AllocError>
    ensures { IfOk result (λ text. string_bytes text ≡ coverage_text coverage) }
{
    let blocks = blocks_text(alloc, coverage.newest, coverage.blocks)?;
    let covered = coverage.covered;
    let transactions = coverage.transactions;
    let text = format!(in alloc; "covers {covered} of {transactions} transactions, {blocks}")?;
    Ok(text)
}

/// The image whose bytes these are, or none where they are those of no image.
fn image_in(alloc: Global, bytes: &[u8]) -> Result<Option<Image>, Memory>
    ensures bytes { (i : ℕ) → slice_index bytes.now i < 256 }
    ensures found { IfOk result (λ read. IfSome read (λ i. IsImage i × IsSpellingOf bytes.now i)) }
    ensures only { (i : Image) → IsImage i → IsSpellingOf bytes.now i → IfOk result (λ read. read ≡ Some i) }
{
    read_image(alloc, bytes)
}

/// What the digests cover of an image that is accepted, or the verdict on it, by so many threads.
fn judge_image<H: Hash32, R: Threads + Sync>(
    rt: &R,
    alloc: Global,
    hasher: H,
    image: &Image,
    digests: &[HeldDigest],
    workers: u32,
) -> Result<Judgement, Memory>
    requires { IsImage image.now }
    ensures { IfOk result (IsImageJudged (H.digest hasher) digests.now image.now) }
{
    let verdict = verify_image_with_workers(rt, alloc, hasher, image, digests, workers)?;
    match verdict {
        Verdict::Yes => Ok(Judgement::Accepted(coverage_of(image, digests))),
        Verdict::No(invariant, place) => Ok(Judgement::Refused(Verdict::No(invariant, place))),
    }
}

/// What the digests cover of the image that some bytes are, where it is accepted with them, and else the verdict on the
/// bytes. The only error is want of memory; at most so many threads look at the image as there are workers.
pub fn judge<H: Hash32, R: Threads + Sync>(
    rt: &R,
    alloc: Global,
    hasher: H,
    bytes: Vec<u8>,
    digests: &[HeldDigest],
    workers: u32,
) -> Result<Judgement, Memory>
    ensures { IfOk result (IsJudged (H.digest hasher) digests.now bytes.items) }
{
    let read = image_in(alloc, &bytes)?;
    // going through the image takes much memory of its own
    drop(bytes);
    match read {
        Some(image) => judge_image(rt, alloc, hasher, &image, digests, workers),
        None => Ok(Judgement::Refused(Verdict::No(Invariant::V0, Place::Whole))),
    }
}
