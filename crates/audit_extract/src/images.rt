//! Two images that meet one digest.

ghost use Rattle.std.specs.Prelude.{◌≡◌, IfOk};
ghost use Rattle.spec_verify.specs.Covered.{covered_of};
ghost use Rattle.audit_extract.specs.Finds.{Finds};
ghost use Rattle.audit_extract.specs.Meets.{Meets};
ghost use Rattle.audit_extract.specs.Strings.{AreHashed, OfCollision};

use crate::blocks::in_blocks;
use crate::chain::in_chain;
use crate::entries::in_entries;
use crate::found::ImageComparison;
use base_merkle::Hash32;
use base_types::Memory;
use sql_types::{HeldDigest, Image};
use std::alloc::Global;

/// `Same` exactly where the entries and events that the digest covers are the same in both images,
/// and else two different byte strings with one hash. So whoever shows two histories under one digest
/// has broken the hash. The first was hashed in the honest image and the second at the same place of the
/// other: the records of one block, or what is hashed at one node of two trees, of a block's entries or of a
/// transaction's events in a table.
pub fn extract<H: Hash32>(
    alloc: Global,
    h: H,
    honest: &Image,
    suspect: &Image,
    digest: &HeldDigest,
) -> Result<ImageComparison, Memory>
    requires honest { Meets (H.digest h) honest.now digest.now }
    requires suspect { Meets (H.digest h) suspect.now digest.now }
    ensures finds { IfOk result (Finds (H.digest h)
        (covered_of honest.now digest.now.block ≡ covered_of suspect.now digest.now.block)) }
    ensures strings { IfOk result (OfCollision (AreHashed (H.digest h) honest.now suspect.now)) }
{
    if let ImageComparison::Collision(records) = in_chain(alloc, h, honest, suspect, digest)? {
        return Ok(ImageComparison::Collision(records));
    }
    if let ImageComparison::Collision(nodes) = in_blocks(alloc, h, honest, suspect, digest)? {
        return Ok(ImageComparison::Collision(nodes));
    }
    in_entries(alloc, h, honest, suspect, digest)
}
