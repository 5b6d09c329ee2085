//! The verdict on an image.

ghost use Rattle.std.specs.Prelude.{◌≡◌, IfOk};
ghost use Rattle.format_image.specs.ImageBytes.{IsImage};
ghost use Rattle.spec_verify.specs.Verdict.{image_verdict};
ghost use Rattle.audit_verify.specs.Verdict.{blocks_tried, tables_tried};

use crate::blocks::{block_fault, chain_fault, digest_fault};
use crate::entries::Entries;
use crate::ids::id_fault;
use crate::indexes::index_fault;
use crate::versions::row_fault;
use audit_roots::{root_fault, shown_tables};
use audit_rules::catalog_fault;
use base_merkle::Hash32;
use base_types::Memory;
use format_image::Image;
use spec_verify::{Invariant, Place, Verdict};
use sql_system::first_tables;
use sql_types::HeldDigest;
use std::alloc::Global;

/// The verdict on an image that has a spelling.
pub fn verify_image<H: Hash32>(
    alloc: Global,
    hasher: H,
    image: &Image,
    digests: &[HeldDigest],
) -> Result<Verdict, Memory>
    requires { IsImage image.now }
    ensures { IfOk result (λ v. v ≡ image_verdict (H.digest hasher) image.now digests.now) }
{
    match verify_blocks(alloc, hasher, image, digests)? {
        Verdict::Yes => verify_tables(alloc, hasher, image),
        no => Ok(no),
    }
}

/// The invariants that speak of digests and blocks: Yes where none of them fails.
fn verify_blocks<H: Hash32>(
    alloc: Global,
    hasher: H,
    image: &Image,
    digests: &[HeldDigest],
) -> Result<Verdict, Memory>
    requires { IsImage image.now }
    ensures { IfOk result (λ v. v ≡ blocks_tried (H.digest hasher) image.now digests.now) }
{
    if let Some(place) = digest_fault(hasher, image, digests) {
        return Ok(Verdict::No(Invariant::V1, place));
    }
    if let Some(place) = chain_fault(hasher, image) {
        return Ok(Verdict::No(Invariant::V2, place));
    }
    if let Some(place) = block_fault(alloc, hasher, image)? {
        return Ok(Verdict::No(Invariant::V3, place));
    }
    Ok(Verdict::Yes)
}

/// The invariants that speak of the rows of tables.
fn verify_tables<H: Hash32>(alloc: Global, hasher: H, image: &Image) -> Result<Verdict, Memory>
    requires { IsImage image.now }
    ensures { IfOk result (λ v. v ≡ tables_tried (H.digest hasher) image.now) }
{
    let system = first_tables(alloc)?;
    let tables = shown_tables(alloc, &system, image)?;
    let entries = Entries::new(alloc, image.entries.as_slice())?;
    if let Some(place) = id_fault(image, &entries, &tables) {
        return Ok(Verdict::No(Invariant::V4, place));
    }
    if let Some(place) = root_fault(alloc, hasher, image, &tables)? {
        return Ok(Verdict::No(Invariant::V5, place));
    }
    if let Some(place) = row_fault(alloc, image, &tables)? {
        return Ok(Verdict::No(Invariant::V6, place));
    }
    if let Some(place) = catalog_fault(alloc, image)? {
        return Ok(Verdict::No(Invariant::V7, place));
    }
    if let Some(place) = index_fault(alloc, image, &tables)? {
        return Ok(Verdict::No(Invariant::V8, place));
    }
    Ok(Verdict::Yes)
}
