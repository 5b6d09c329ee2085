//! Images and digests of a journal that goes on.

ghost use Rattle.std.specs.Prelude.{ℕ, ◌≡◌, List, map};
ghost use Rattle.sql_types.specs.declared.digest.Digest.{Digest};
ghost use Rattle.sql_types.specs.declared.journal.Journal.{Journal};
ghost use Rattle.sql_types.specs.declared.journal.JournalItem.{JournalItem};
ghost use Rattle.spec_model.specs.LegalJournals.{IsLegalJournal};
ghost use Rattle.spec_history.specs.Lists.{Each};
ghost use Rattle.spec_history.specs.Meaning.{Meaning};
ghost use Rattle.spec_syntax.specs.Text.{statement_of};
ghost use Rattle.spec_ledger.specs.Ledger.{block_hash};
ghost use Rattle.format_image.specs.Image.{image_of_cut};
ghost use Rattle.format_image.specs.ImageBytes.{IsImage, image_bytes};
ghost use Rattle.spec_verify.specs.Bytes.{verdict_of};
ghost use Rattle.spec_verify.specs.declared.place.Verdict.TheVariants.{Yes};
ghost use Rattle.law_accepts.specs.Held.{held};
ghost use Rattle.law_accepts.specs.Room.{FitsImageFormat};
ghost use Rattle.law_earlier_digests.specs.Earlier.{IsOfIts};

use law_accepts::{
    digests_are_held_where_their_blocks_are_closed, images_of_legal_journals_verify,
};

/// The verdict on the image of a legal journal's first items is Yes with any digests of blocks that are closed in
/// them: of the journal itself, and of any journal with which it begins, as it was when they were issued. The image
/// has to have a spelling; it has one where the whole journal has room in the format.
pub fn images_verify_with_earlier_digests()
    ensures spelled { (h : List ℕ → List ℕ) (q : Meaning)
        → ((K : List JournalItem) (b : ℕ) → q.block_hash K b ≡ block_hash h statement_of K b)
        → (j : Journal) (m : ℕ) (digests : List Digest) → IsLegalJournal statement_of j
        → Each (IsOfIts q j.database j.items m) digests
        → IsImage (image_of_cut h statement_of j.database j.items m)
        → verdict_of h (map held digests) (image_bytes (image_of_cut h statement_of j.database j.items m)) ≡ Yes }
    ensures room { (h : List ℕ → List ℕ) (q : Meaning)
        → ((K : List JournalItem) (b : ℕ) → q.block_hash K b ≡ block_hash h statement_of K b)
        → (j : Journal) (m : ℕ) (digests : List Digest) → IsLegalJournal statement_of j
        → Each (IsOfIts q j.database j.items m) digests
        → FitsImageFormat h statement_of j.database j.items
        → verdict_of h (map held digests) (image_bytes (image_of_cut h statement_of j.database j.items m)) ≡ Yes }
{
    images_of_legal_journals_verify();
    digests_are_held_where_their_blocks_are_closed();
}
