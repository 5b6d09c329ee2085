//! The chain of blocks: from the digest's block down, the records of two images are the same or collide.

ghost use Rattle.std.specs.Prelude.{◌≡◌, ◌≢◌, ◌<◌, ◌∷◌, ◌+◌, true, false, length, drop, IfOk};
ghost use Rattle.format_entry.specs.Record.{record_bytes};
ghost use Rattle.audit_extract.specs.Finds.{Finds};
ghost use Rattle.audit_extract.specs.Meets.{Meets};
ghost use Rattle.audit_extract.specs.Parts.{blocks_to};
ghost use Rattle.audit_extract.specs.Strings.{AreRecords, OfCollision};

use crate::blocks::covered_blocks;
use crate::found::{Collision, ImageComparison};
use base_merkle::Hash32;
use base_types::{Blob, Memory};
use format_entry::record_bytes;
use sql_types::{BlockRecord, HeldDigest, Image};
use std::alloc::Global;

/// Goes down from the digest's block, whose hash is one in both images. As long as the hashes are one,
/// records that differ collide, and records that are the same tell one hash of the block before.
pub(crate) fn in_chain<H: Hash32>(
    alloc: Global,
    h: H,
    honest: &Image,
    suspect: &Image,
    digest: &HeldDigest,
) -> Result<ImageComparison, Memory>
    requires honest { Meets (H.digest h) honest.now digest.now }
    requires suspect { Meets (H.digest h) suspect.now digest.now }
    ensures finds { IfOk result (Finds (H.digest h)
        (blocks_to honest.now digest.now.block ≡ blocks_to suspect.now digest.now.block)) }
    ensures strings { IfOk result (OfCollision (AreRecords honest.now suspect.now)) }
{
    let a = honest.blocks.as_slice();
    let b = suspect.blocks.as_slice();
    let mut at = covered_blocks(honest, digest.block).len();
    while at > 0 {
        at -= 1;
        let x = record_at(a, at);
        let y = record_at(b, at);
        if !is_same_record(x, y) {
            return Ok(ImageComparison::Collision(bytes_of_both(alloc, x, y)?));
        }
    }
    Ok(ImageComparison::Same)
}

/// The record at this place.
pub fn record_at(records: &[BlockRecord], at: usize) -> &BlockRecord
    requires { at < length records.now }
    ensures { drop at records.now ≡ result.now ∷ drop (at + 1) records.now }
{
    &records[at]
}

/// Whether two records are one.
pub fn is_same_record(x: &BlockRecord, y: &BlockRecord) -> bool
    ensures same { result ≡ true → x.now ≡ y.now }
    ensures differ { result ≡ false → x.now ≢ y.now }
{
    x == y
}

/// The bytes of two records.
pub fn bytes_of_both(alloc: Global, x: &BlockRecord, y: &BlockRecord) -> Result<Collision, Memory>
    ensures first { IfOk result (λ c. c.first ≡ record_bytes x.now) }
    ensures second { IfOk result (λ c. c.second ≡ record_bytes y.now) }
{
    let first = Blob::of(alloc, &record_bytes(x))?;
    let second = Blob::of(alloc, &record_bytes(y))?;
    Ok(Collision { first, second })
}
