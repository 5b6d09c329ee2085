//! Two images that are accepted with the same digests.

ghost use Rattle.std.specs.Prelude.{◌≡◌, IfOk, option_map};
ghost use Rattle.format_image.specs.ImageBytes.{IsImage};
ghost use Rattle.spec_verify.specs.declared.place.Verdict.TheVariants.{Yes};
ghost use Rattle.spec_verify.specs.Verdict.{image_verdict};
ghost use Rattle.audit_extract.specs.Each.{AgreeOnEach, last_from, last_of};
ghost use Rattle.audit_extract.specs.Finds.{Finds};
ghost use Rattle.audit_extract.specs.Strings.{AreHashed, OfCollision};

use crate::found::ImageComparison;
use crate::images::extract;
use base_merkle::Hash32;
use base_types::Memory;
use sql_types::{HeldDigest, Image};
use std::alloc::Global;

/// `Same` exactly where all that each of the digests covers is the same in both images, and else two
/// different byte strings with one hash, as `extract` finds them. The digest of the last block covers what the
/// others do, so it is the one that is asked; with no digest there is nothing that could differ.
pub fn extract_each<H: Hash32>(
    alloc: Global,
    h: H,
    honest: &Image,
    suspect: &Image,
    digests: &[HeldDigest],
) -> Result<ImageComparison, Memory>
    requires honest { IsImage honest.now }
    requires suspect { IsImage suspect.now }
    requires honest_accepted { image_verdict (H.digest h) honest.now digests.now ≡ Yes }
    requires suspect_accepted { image_verdict (H.digest h) suspect.now digests.now ≡ Yes }
    ensures finds { IfOk result (Finds (H.digest h) (AgreeOnEach honest.now suspect.now digests.now)) }
    ensures strings { IfOk result (OfCollision (AreHashed (H.digest h) honest.now suspect.now)) }
{
    match last_of(digests) {
        None => Ok(ImageComparison::Same),
        Some(digest) => extract(alloc, h, honest, suspect, digest),
    }
}

/// The digest of the greatest block, the first of these.
pub fn last_of(digests: &[HeldDigest]) -> Option<&HeldDigest>
    ensures { option_map (λ d. d.now) result ≡ last_of digests.now }
{
    match digests {
        [] => None,
        [first, rest @ ..] => Some(last_from(first, rest)),
    }
}

fn last_from<'a>(first: &'a HeldDigest, rest: &'a [HeldDigest]) -> &'a HeldDigest
    ensures { result.now ≡ last_from first.now rest.now }
{
    let mut last = first;
    for digest in rest {
        if last.block < digest.block {
            last = digest;
        }
    }
    last
}
