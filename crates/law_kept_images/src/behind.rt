//! Laws of the images that were kept behind a past.

ghost use Rattle.std.specs.Prelude.{ℕ, ◌≡◌, List, map};
ghost use Rattle.sql_types.specs.declared.journal.TheConstants.{JOURNAL_VERSION};
ghost use Rattle.sql_types.specs.declared.digest.Digest.{Digest};
ghost use Rattle.sql_types.specs.declared.journal.JournalItem.{JournalItem};
ghost use Rattle.spec_model.specs.LegalJournals.{IsLegalJournal};
ghost use Rattle.spec_history.specs.Inputs.{InputLine};
ghost use Rattle.spec_history.specs.Lists.{Text, Each};
ghost use Rattle.spec_history.specs.Transcripts.{Transcript};
ghost use Rattle.spec_syntax.specs.Text.{statement_of};
ghost use Rattle.law_accepts.specs.Held.{held};
ghost use Rattle.law_accepts.specs.Room.{FitsImageFormat};
ghost use Rattle.spec_verify.specs.declared.place.Verdict.TheVariants.{Yes};
ghost use Rattle.spec_verify.specs.Bytes.{verdict_of};
ghost use Rattle.spec_protocol.specs.Seats.{KeptImage};
ghost use Rattle.law_behind.specs.Past.{Past};
ghost use Rattle.law_sequential.specs.OutcomeBehind.{RunAgreesBehind};
ghost use Rattle.law_kept_images.specs.AcceptedBehind.{IsAcceptedBehind, IsAcceptedBehindIfEncodable};
ghost use Rattle.law_kept_images.specs.LastImage.{journal_of, last_image, last_image_bytes};

use law_accepts::{
    digests_are_held_where_their_blocks_are_closed, images_of_legal_journals_verify,
};

/// Where texts are read as the parser reads them and the journal of a run behind a past is legal: each image that a
/// session of the run kept is accepted with any digests of blocks that were closed in the past, as it was whenever
/// they were issued, and with any that were issued in the run, of blocks that are closed in it, where the image has
/// a spelling in the format; it has one where the whole journal has room in it. Where it has, the image of the whole
/// journal is accepted so too, and with all digests of the run at once.
pub fn kept_images_behind_a_past_are_accepted()
    ensures spelled { (h : List ℕ → List ℕ) (database : Text) (size : ℕ) (past : Past) (names : List Text)
        (lines : List InputLine) (X : List Transcript) (images : List (List KeptImage))
        (J : List JournalItem) (G : List Digest)
        → RunAgreesBehind h statement_of database size past names lines X images J G
        → IsLegalJournal statement_of (record { version = JOURNAL_VERSION; database = database; items = J })
        → Each (λ kept. Each (IsAcceptedBehindIfEncodable h database past J G) kept) images }
    ensures room { (h : List ℕ → List ℕ) (database : Text) (size : ℕ) (past : Past) (names : List Text)
        (lines : List InputLine) (X : List Transcript) (images : List (List KeptImage))
        (J : List JournalItem) (G : List Digest)
        → RunAgreesBehind h statement_of database size past names lines X images J G
        → IsLegalJournal statement_of (record { version = JOURNAL_VERSION; database = database; items = J })
        → FitsImageFormat h statement_of database J
        → Each (λ kept. Each (IsAcceptedBehind h database past J G) kept) images }
    ensures whole { (h : List ℕ → List ℕ) (database : Text) (size : ℕ) (past : Past) (names : List Text)
        (lines : List InputLine) (X : List Transcript) (images : List (List KeptImage))
        (J : List JournalItem) (G : List Digest)
        → RunAgreesBehind h statement_of database size past names lines X images J G
        → IsLegalJournal statement_of (record { version = JOURNAL_VERSION; database = database; items = J })
        → FitsImageFormat h statement_of database J
        → IsAcceptedBehind h database past J G (last_image h (journal_of database J)) }
    ensures all { (h : List ℕ → List ℕ) (database : Text) (size : ℕ) (past : Past) (names : List Text)
        (lines : List InputLine) (X : List Transcript) (images : List (List KeptImage))
        (J : List JournalItem) (G : List Digest)
        → RunAgreesBehind h statement_of database size past names lines X images J G
        → IsLegalJournal statement_of (record { version = JOURNAL_VERSION; database = database; items = J })
        → FitsImageFormat h statement_of database J
        → verdict_of h (map held G) (last_image_bytes h (journal_of database J)) ≡ Yes }
{
    images_of_legal_journals_verify();
    digests_are_held_where_their_blocks_are_closed();
}
