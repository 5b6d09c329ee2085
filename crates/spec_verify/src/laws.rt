//! Laws of the verdict.

ghost use Rattle.std.specs.Prelude.{ℕ, ◌≡◌, ◌↔◌, ◌+◌, ◌<◌, ◌≤◌, List, length, Some, None};
ghost use Rattle.base_fields.specs.Exact.{IsBytes};
ghost use Rattle.base_fields.specs.Readers.{whole};
ghost use Rattle.format_image.specs.ImageBytes.{IsImage, IsSpellingOf};
ghost use Rattle.format_image.specs.ImageReading.{image_at};
ghost use Rattle.sql_types.specs.declared.digest.HeldDigest.{HeldDigest};
ghost use Rattle.sql_types.specs.declared.entry.BlockRecord.{BlockRecord};
ghost use Rattle.sql_types.specs.declared.entry.TxEntry.{TxEntry};
ghost use Rattle.sql_types.specs.declared.image.Image.{Image};
ghost use Rattle.spec_verify.specs.declared.place.Invariant.TheVariants.{V0, V1, V2, V3, V4, V5, V6, V7, V8};
ghost use Rattle.spec_verify.specs.declared.place.Place.{Place};
ghost use Rattle.spec_verify.specs.declared.place.Place.TheVariants.{Whole};
ghost use Rattle.spec_verify.specs.declared.place.Verdict.TheVariants.{Yes, No};
ghost use Rattle.spec_verify.specs.Blocks.{digest_fault, chain_fault, block_fault, entries_before};
ghost use Rattle.spec_verify.specs.Bytes.{verdict_of};
ghost use Rattle.spec_verify.specs.Covered.{AgreeUpTo, SayTheSameUpTo, covered_of, with_more};
ghost use Rattle.spec_verify.specs.Entries.{id_fault, root_fault};
ghost use Rattle.spec_verify.specs.Indexes.{index_fault};
ghost use Rattle.spec_verify.specs.Rules.{row_fault, catalog_fault};
ghost use Rattle.spec_verify.specs.Verdict.{image_verdict, AllHold};

/// The invariants are tried in order, from V1 to V8, and the first that fails is named, with its place. Where
/// none fails the verdict is Yes.
pub fn the_first_invariant_that_fails_is_named()
    ensures digests { (h : List ℕ → List ℕ) (i : Image) (digests : List HeldDigest) (p : Place)
        → digest_fault h i digests ≡ Some p → image_verdict h i digests ≡ No V1 p }
    ensures chain { (h : List ℕ → List ℕ) (i : Image) (digests : List HeldDigest) (p : Place)
        → digest_fault h i digests ≡ None → chain_fault h i ≡ Some p
        → image_verdict h i digests ≡ No V2 p }
    ensures blocks { (h : List ℕ → List ℕ) (i : Image) (digests : List HeldDigest) (p : Place)
        → digest_fault h i digests ≡ None → chain_fault h i ≡ None → block_fault h i ≡ Some p
        → image_verdict h i digests ≡ No V3 p }
    ensures ids { (h : List ℕ → List ℕ) (i : Image) (digests : List HeldDigest) (p : Place)
        → digest_fault h i digests ≡ None → chain_fault h i ≡ None → block_fault h i ≡ None
        → id_fault i ≡ Some p → image_verdict h i digests ≡ No V4 p }
    ensures entries { (h : List ℕ → List ℕ) (i : Image) (digests : List HeldDigest) (p : Place)
        → digest_fault h i digests ≡ None → chain_fault h i ≡ None → block_fault h i ≡ None
        → id_fault i ≡ None → root_fault h i ≡ Some p → image_verdict h i digests ≡ No V5 p }
    ensures versions { (h : List ℕ → List ℕ) (i : Image) (digests : List HeldDigest) (p : Place)
        → digest_fault h i digests ≡ None → chain_fault h i ≡ None → block_fault h i ≡ None
        → id_fault i ≡ None → root_fault h i ≡ None → row_fault i ≡ Some p
        → image_verdict h i digests ≡ No V6 p }
    ensures definitions { (h : List ℕ → List ℕ) (i : Image) (digests : List HeldDigest) (p : Place)
        → digest_fault h i digests ≡ None → chain_fault h i ≡ None → block_fault h i ≡ None
        → id_fault i ≡ None → root_fault h i ≡ None → row_fault i ≡ None
        → catalog_fault i ≡ Some p → image_verdict h i digests ≡ No V7 p }
    ensures indexes { (h : List ℕ → List ℕ) (i : Image) (digests : List HeldDigest) (p : Place)
        → digest_fault h i digests ≡ None → chain_fault h i ≡ None → block_fault h i ≡ None
        → id_fault i ≡ None → root_fault h i ≡ None → row_fault i ≡ None → catalog_fault i ≡ None
        → index_fault i ≡ Some p → image_verdict h i digests ≡ No V8 p }
    ensures none { (h : List ℕ → List ℕ) (i : Image) (digests : List HeldDigest)
        → AllHold h i digests → image_verdict h i digests ≡ Yes }
{}

/// The verdict is Yes exactly where no invariant fails anywhere.
pub fn yes_is_said_of_what_holds()
    ensures { (h : List ℕ → List ℕ) (i : Image) (digests : List HeldDigest)
        → (image_verdict h i digests ≡ Yes) ↔ AllHold h i digests }
{}

/// The verdict on bytes is that on the image that they are, and `No V0` where they are none.
pub fn bytes_are_judged_by_their_image()
    ensures image { (h : List ℕ → List ℕ) (digests : List HeldDigest) (bytes : List ℕ) (i : Image)
        → IsImage i → IsSpellingOf bytes i → verdict_of h digests bytes ≡ image_verdict h i digests }
    ensures none { (h : List ℕ → List ℕ) (digests : List HeldDigest) (bytes : List ℕ)
        → IsBytes bytes → ((i : Image) → IsImage i → IsSpellingOf bytes i → ⊥)
        → verdict_of h digests bytes ≡ No V0 Whole }
{}

/// Two byte strings that are read to one image have one verdict with every list of digests: so have its bytes
/// in version 1 and those in version 2.
pub fn spellings_of_one_image_have_one_verdict()
    ensures read { (h : List ℕ → List ℕ) (digests : List HeldDigest) (a b : List ℕ)
        → whole image_at a ≡ whole image_at b → verdict_of h digests a ≡ verdict_of h digests b }
    ensures spelled { (h : List ℕ → List ℕ) (digests : List HeldDigest) (a b : List ℕ) (i : Image)
        → IsImage i → IsSpellingOf a i → IsSpellingOf b i → verdict_of h digests a ≡ verdict_of h digests b }
{}

/// What a digest covers is the same of two images exactly where the entries of its block and of those before
/// it say the same but for their roots, and their transactions' events tell the same.
pub fn entries_and_their_events_are_covered()
    ensures { (b : ℕ) (i j : Image) → (covered_of i b ≡ covered_of j b) ↔ SayTheSameUpTo b i j }
{}

/// What a digest covers hangs on the entries of its block and of those before it, and on the events of their
/// transactions, alone: images that agree so far cover the same, and what stands behind is not covered.
pub fn only_blocks_up_to_its_own_are_covered()
    ensures same { (b : ℕ) (i j : Image) → AgreeUpTo b i j → covered_of i b ≡ covered_of j b }
    ensures behind { (b : ℕ) (i : Image) (blocks : List BlockRecord) (entries : List TxEntry)
        → b < length i.blocks → entries_before i (b + 1) ≤ length i.entries
        → covered_of (with_more i blocks entries) b ≡ covered_of i b }
{}
