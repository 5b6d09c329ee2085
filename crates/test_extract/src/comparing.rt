//! Two images that are held against the same digests.

ghost use Rattle.std.specs.Prelude.{◌≡◌, None, IfOk};
ghost use Rattle.format_image.specs.ImageBytes.{IsImage};
ghost use Rattle.spec_verify.specs.declared.place.Verdict.TheVariants.{Yes};
ghost use Rattle.spec_verify.specs.Verdict.{image_verdict};

use crate::fault::Fault;
use audit_extract::{Collision, ImageComparison, extract_each};
use audit_verify::verify_image;
use base_merkle::Hash32;
use base_types::Memory;
use spec_verify::Verdict;
use sql_types::{HeldDigest, Image};
use std::alloc::{AllocError, Global};

/// The verdict on an image that isn't accepted.
pub fn refusal<H: Hash32>(
    alloc: Global,
    h: H,
    image: &Image,
    digests: &[HeldDigest],
) -> Result<Option<Verdict>, Memory>
    requires { IsImage image.now }
    ensures { IfOk result
        (λ refusal. refusal ≡ None → image_verdict (H.digest h) image.now digests.now ≡ Yes) }
{
    match verify_image(alloc, h, image, digests)? {
        Verdict::Yes => Ok(None),
        verdict => Ok(Some(verdict)),
    }
}

fn text_of(alloc: Global, found: &ImageComparison) -> Result<String, AllocError> {
    match found {
        ImageComparison::Same => String::from_str(alloc, "Same"),
        ImageComparison::Collision(collision) => collision_text(alloc, collision),
    }
}

/// The lines of a collision.
pub fn collision_text(alloc: Global, collision: &Collision) -> Result<String, AllocError> {
    let first = hex::encode(alloc, collision.first.bytes())?;
    let second = hex::encode(alloc, collision.second.bytes())?;
    format!(in alloc; "Collision\n{first}\n{second}")
}

/// The verdict on the first of two images that isn't accepted with the digests, or what they are to each
/// other.
pub fn compared<H: Hash32>(
    alloc: Global,
    h: H,
    honest: &Image,
    suspect: &Image,
    digests: &[HeldDigest],
) -> Result<String, Fault>
    requires honest { IsImage honest.now }
    requires suspect { IsImage suspect.now }
{
    if let Some(verdict) = refusal(alloc, h, honest, digests)? {
        return Ok(format!(in alloc; "honest: {verdict}")?);
    }
    if let Some(verdict) = refusal(alloc, h, suspect, digests)? {
        return Ok(format!(in alloc; "suspect: {verdict}")?);
    }
    let found = extract_each(alloc, h, honest, suspect, digests)?;
    let text = text_of(alloc, &found);
    // `drop` lets each type go by a function of its own, which is proved once
    drop(found);
    Ok(text?)
}
