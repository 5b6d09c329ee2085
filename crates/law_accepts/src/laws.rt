//! Laws of the images of legal journals.

ghost use Rattle.std.specs.Prelude.{ℕ, ◌≡◌, ◌<◌, true, List, None};
ghost use Rattle.std.specs.List.{AllByRecursion};
ghost use Rattle.sql_types.specs.declared.digest.HeldDigest.{HeldDigest};
ghost use Rattle.sql_types.specs.declared.journal.Journal.{Journal};
ghost use Rattle.sql_types.specs.declared.journal.JournalItem.{JournalItem};
ghost use Rattle.sql_types.specs.JournalRules.{ItemRules};
ghost use Rattle.spec_model.specs.Journals.{cut, IsLegal};
ghost use Rattle.spec_model.specs.LegalJournals.{IsLegalJournal};
ghost use Rattle.spec_model.specs.Script.{Reading};
ghost use Rattle.spec_history.specs.Digests.{Digest, IsDigest};
ghost use Rattle.spec_history.specs.Journals.{blocks};
ghost use Rattle.spec_history.specs.Meaning.{Meaning};
ghost use Rattle.spec_syntax.specs.Text.{statement_of};
ghost use Rattle.law_catalog_rows.specs.Written.{ReadsWritten};
ghost use Rattle.law_blocks.specs.Digests.{digest_of};
ghost use Rattle.spec_ledger.specs.Ledger.{block_hash};
ghost use Rattle.format_image.specs.Image.{image_of, image_of_cut};
ghost use Rattle.format_image.specs.ImageBytes.{image_bytes, image_bytes_1, IsImage, IsImage1};
ghost use Rattle.law_image.specs.Room.{FitsImageFormat};
ghost use Rattle.spec_rules.specs.OneStatement.{one_statement};
ghost use Rattle.law_rules.specs.Alone.{HasOneStatement};
ghost use Rattle.spec_verify.specs.declared.place.Verdict.TheVariants.{Yes};
ghost use Rattle.spec_verify.specs.Blocks.{digest_fault, chain_fault, block_fault};
ghost use Rattle.spec_verify.specs.Bytes.{verdict_of};
ghost use Rattle.spec_verify.specs.Definitions.{definition_fault};
ghost use Rattle.spec_verify.specs.Entries.{id_fault, root_fault};
ghost use Rattle.spec_verify.specs.Indexes.{index_fault};
ghost use Rattle.spec_verify.specs.Verdict.{AllHold};
ghost use Rattle.spec_verify.specs.Rules.{ids_of_rows, rows_of_image};
ghost use Rattle.spec_verify.specs.Versions.{version_fault};
ghost use Rattle.law_accepts.specs.Held.{held, IsHeld, AllHeld};

use law_catalog_text::readings_of_the_grammar_give_written;
use law_image::legal_images_are_encodable;

// ---- digests

/// A digest of a block is held at each cut of a journal in which that block is closed: one that was issued at
/// some cut, and one that agrees with the whole journal by the rules of histories.
pub fn digests_are_held_where_their_blocks_are_closed()
    ensures issued { (h : List ℕ → List ℕ) (reads : Reading) (database : List ℕ) (items : List JournalItem)
        (m n b made : ℕ)
        → b < blocks (cut items m) → b < blocks (cut items n)
        → IsHeld h reads database (cut items n) (held (digest_of h reads database (cut items m) b made)) }
    ensures agreed { (h : List ℕ → List ℕ) (reads : Reading) (q : Meaning) (database : List ℕ)
        (items : List JournalItem) (m : ℕ) (d : Digest)
        → ((J : List JournalItem) (b : ℕ) → q.block_hash J b ≡ block_hash h reads J b)
        → IsDigest q database items d → d.block < blocks (cut items m)
        → IsHeld h reads database (cut items m) (held d) }
{}

// ---- one invariant after another

/// Digests of blocks that are closed in a journal hold with its image.
pub fn honest_digests_hold()
    ensures { (h : List ℕ → List ℕ) (reads : Reading) (database : List ℕ) (items : List JournalItem)
        (digests : List HeldDigest)
        → AllHeld h reads database items digests
        → digest_fault h (image_of h reads database items) digests ≡ None }
{}

/// The blocks of a journal's image are a chain.
pub fn honest_chains_hold()
    ensures { (h : List ℕ → List ℕ) (reads : Reading) (database : List ℕ) (items : List JournalItem)
        → chain_fault h (image_of h reads database items) ≡ None }
{}

/// Each block of a legal journal's image has a size that may be closed, and the root of its entries.
pub fn honest_blocks_hold()
    ensures { (h : List ℕ → List ℕ) (reads : Reading) (database : List ℕ) (items : List JournalItem)
        → IsLegal reads items → block_fault h (image_of h reads database items) ≡ None }
{}

/// No two entries of a legal journal's image have one id, and each start and end is of one of them.
pub fn honest_ids_hold()
    ensures { (h : List ℕ → List ℕ) (reads : Reading) (database : List ℕ) (items : List JournalItem)
        → IsLegal reads items → id_fault (image_of h reads database items) ≡ None }
{}

/// The events of each entry of a legal journal's image are numbered from 0 on, and the roots that were worked
/// out at its commit are those of its events in the tables to which the whole journal leads.
pub fn honest_roots_hold()
    ensures { (h : List ℕ → List ℕ) (reads : Reading) (database : List ℕ) (items : List JournalItem)
        → IsLegal reads items → root_fault h (image_of h reads database items) ≡ None }
{}

/// Each version in a legal journal's image fits its table, has no end where the table is append-only, and
/// follows the one before it of its key; no two base rows have one key.
pub fn honest_versions_hold()
    ensures { (h : List ℕ → List ℕ) (reads : Reading) (database : List ℕ) (items : List JournalItem)
        → IsLegal reads items → version_fault (image_of h reads database items) ≡ None }
{}

/// The rows of the system's tables in a legal journal's image spell its definitions, where each statement
/// that is read is one that the grammar may have written.
pub fn honest_definitions_hold()
    ensures { (h : List ℕ → List ℕ) (reads : Reading) (database : List ℕ) (items : List JournalItem)
        → ReadsWritten reads → IsLegal reads items
        → definition_fault (image_of h reads database items) ≡ None }
{}

/// Each transaction of a legal journal that enters rows in the system's tables is one statement about one table. It
/// has events in the system's tables alone. So it is if each transaction that BEGIN did not open has one statement.
pub fn honest_changes_are_of_one_statement()
    ensures { (h : List ℕ → List ℕ) (reads : Reading) (database : List ℕ) (items : List JournalItem)
        → ReadsWritten reads → IsLegal reads items → AllByRecursion HasOneStatement items
        → let i = image_of h reads database items in
        AllByRecursion (λ t. one_statement i.entries (rows_of_image i) t ≡ true) (ids_of_rows i) }
{}

/// The rows of each index in a legal journal's image are those of its table's base, sorted.
pub fn honest_indexes_hold()
    ensures { (h : List ℕ → List ℕ) (reads : Reading) (database : List ℕ) (items : List JournalItem)
        → IsLegal reads items → index_fault (image_of h reads database items) ≡ None }
{}

// ---- all of them

/// So nothing is at fault in the image of a legal journal with digests of its closed blocks, if each statement that is
/// read is one that the grammar may have written, and each item keeps the rules of a journal's items.
pub fn images_of_legal_journals_hold()
    ensures { (h : List ℕ → List ℕ) (reads : Reading) (database : List ℕ) (items : List JournalItem)
        (digests : List HeldDigest)
        → ReadsWritten reads → AllByRecursion ItemRules items → IsLegal reads items
        → AllHeld h reads database items digests
        → AllHold h (image_of h reads database items) digests }
{}

/// A legal journal whose image has room in the format has an image with room at each of its cuts.
pub fn cuts_have_room_where_journals_have()
    ensures { (h : List ℕ → List ℕ) (reads : Reading) (database : List ℕ) (items : List JournalItem) (m : ℕ)
        → IsLegal reads items → FitsImageFormat h reads database items → FitsImageFormat h reads database (cut items m) }
{}

/// For every legal journal and each of its cuts, the verdict on the bytes of the image, with any digests of
/// blocks that are closed there, is Yes. The image has to have a spelling, which the journal alone doesn't
/// give; of the statements that the parser reads it has one where the cut, or the whole journal, has room in the
/// format. The statements are those, or those of another reading, where the grammar may have written each. So it is
/// in version 2 of the format, and where nothing in the image was dropped in version 1 too.
pub fn images_of_legal_journals_verify()
    ensures parsed { (h : List ℕ → List ℕ) (j : Journal) (m : ℕ) (digests : List HeldDigest)
        → IsLegalJournal statement_of j
        → AllHeld h statement_of j.database (cut j.items m) digests
        → IsImage (image_of_cut h statement_of j.database j.items m)
        → verdict_of h digests (image_bytes (image_of_cut h statement_of j.database j.items m)) ≡ Yes }
    ensures room { (h : List ℕ → List ℕ) (j : Journal) (m : ℕ) (digests : List HeldDigest)
        → IsLegalJournal statement_of j
        → AllHeld h statement_of j.database (cut j.items m) digests
        → FitsImageFormat h statement_of j.database (cut j.items m)
        → verdict_of h digests (image_bytes (image_of_cut h statement_of j.database j.items m)) ≡ Yes }
    ensures whole { (h : List ℕ → List ℕ) (j : Journal) (m : ℕ) (digests : List HeldDigest)
        → IsLegalJournal statement_of j → FitsImageFormat h statement_of j.database j.items
        → AllHeld h statement_of j.database (cut j.items m) digests
        → verdict_of h digests (image_bytes (image_of_cut h statement_of j.database j.items m)) ≡ Yes }
    ensures written { (h : List ℕ → List ℕ) (reads : Reading) (j : Journal) (m : ℕ)
        (digests : List HeldDigest)
        → ReadsWritten reads → IsLegalJournal reads j
        → AllHeld h reads j.database (cut j.items m) digests
        → IsImage (image_of_cut h reads j.database j.items m)
        → verdict_of h digests (image_bytes (image_of_cut h reads j.database j.items m)) ≡ Yes }
    ensures first { (h : List ℕ → List ℕ) (reads : Reading) (j : Journal) (m : ℕ)
        (digests : List HeldDigest)
        → ReadsWritten reads → IsLegalJournal reads j
        → AllHeld h reads j.database (cut j.items m) digests
        → IsImage1 (image_of_cut h reads j.database j.items m)
        → verdict_of h digests (image_bytes_1 (image_of_cut h reads j.database j.items m)) ≡ Yes }
{
    readings_of_the_grammar_give_written();
    legal_images_are_encodable();
}
