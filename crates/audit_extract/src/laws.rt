//! Laws of what an image meets.

ghost use Rattle.std.specs.Prelude.{ℕ, ◌≡◌, ◌≤◌, ◌∷◌, List, drop, length};
ghost use Rattle.base_fields.specs.Exact.{IsBytes};
ghost use Rattle.format_image.specs.ImageBytes.{IsImage};
ghost use Rattle.sql_types.specs.declared.digest.HeldDigest.{HeldDigest};
ghost use Rattle.sql_types.specs.declared.image.Image.{Image};
ghost use Rattle.spec_verify.specs.declared.place.Verdict.TheVariants.{Yes};
ghost use Rattle.spec_verify.specs.Bytes.{verdict_of};
ghost use Rattle.spec_verify.specs.Covered.{covered_of};
ghost use Rattle.spec_verify.specs.Verdict.{image_verdict};
ghost use Rattle.audit_extract.specs.Each.{OneHistory};
ghost use Rattle.audit_extract.specs.Meets.{Meets};

use format_event::equal_leaves_are_of_equal_events;

/// An image that is accepted with some digests meets each of them,
/// so `extract` may be asked of two such images.
pub fn accepted_images_meet_each_digest()
    ensures { (h : List ℕ → List ℕ) (i : Image) (digests : List HeldDigest)
        → IsImage i → image_verdict h i digests ≡ Yes
        → (k : ℕ) (d : HeldDigest) (more : List HeldDigest) → drop k digests ≡ d ∷ more → Meets h i d }
{}

/// Where two images meet a digest and agree in all that it covers, they agree in all that a digest of an
/// earlier block covers.
pub fn later_digests_cover_more()
    ensures { (h : List ℕ → List ℕ) (i j : Image) (d : HeldDigest) → Meets h i d → Meets h j d
        → covered_of i d.block ≡ covered_of j d.block
        → (b : ℕ) → b ≤ d.block → covered_of i b ≡ covered_of j b }
{}

/// Any two strings of bytes that are accepted with the same digests are those of images with the same covered
/// transactions and row versions, for each of the digests, or two different strings of bytes, hashed at one place
/// of the two images, have one hash, whatever hash of 32 bytes it is. `extract_each` finds the two.
pub fn accepted_bytes_have_one_history_or_a_collision()
    ensures { (h : List ℕ → List ℕ) (digests : List HeldDigest) (a b : List ℕ)
        → ((bytes : List ℕ) → length (h bytes) ≡ 32) → IsBytes a → IsBytes b
        → verdict_of h digests a ≡ Yes → verdict_of h digests b ≡ Yes → OneHistory h digests a b }
{
    equal_leaves_are_of_equal_events();
}
