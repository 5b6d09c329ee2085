//! What is left of a run of sessions side by side that goes on from a journal.

ghost use Rattle.std.specs.Prelude.{ℕ, ◌≡◌, ◌∷◌, List, Option};
ghost use mathlib.Core.Option.{some};
ghost use lib.ListN.{get_elem?};
ghost use Rattle.sql_types.specs.declared.digest.Digest.{Digest};
ghost use Rattle.sql_types.specs.declared.journal.JournalItem.{JournalItem};
ghost use Rattle.spec_model.specs.Script.{Reading};
ghost use Rattle.spec_history.specs.Inputs.{InputSession};
ghost use Rattle.spec_history.specs.Lists.{In, Text};
ghost use Rattle.spec_history.specs.Meaning.{Meaning};
ghost use Rattle.spec_history.specs.Transcripts.{Transcript};
ghost use Rattle.spec_protocol.specs.Cells.{Cell, Ledger, LedgerCell, ledger_at};
ghost use Rattle.spec_protocol.specs.Reordered.{NamesApart};
ghost use Rattle.spec_protocol.specs.Seats.{Written};
ghost use Rattle.spec_protocol.specs.Server.{Server};
ghost use Rattle.law_behind.specs.AgreeBehind.{AgreeBehind};
ghost use Rattle.law_behind.specs.Past.{Past, no_past};
ghost use Rattle.law_kept_images.specs.RunStart.{RunStart};
ghost use Rattle.law_kept_images.specs.SessionOutput.{IsMeaning};
ghost use Rattle.law_kept_images.specs.Wrote.{transcripts_in};
ghost use Rattle.law_concurrent.specs.CameTo.{CameTo, RunResult};
ghost use Rattle.law_concurrent.specs.CameToBehind.{CameToBehind};
ghost use Rattle.law_concurrent.specs.Joined.{KnewThatOver};
ghost use Rattle.law_concurrent.specs.JoinedBehind.{IsJoinedBehind, HasJoinedBehind};
ghost use Rattle.law_concurrent.specs.Together.{names_in};
ghost use Rattle.law_concurrent.specs.TogetherBehind.{RanTogetherBehind};

use crate::laws::statements_have_one_meaning;
use law_behind::without_a_past_nothing_else_is_meant;
use law_kept_images::{
    agreement_behind_a_past_is_of_any_order, digests_are_held_where_their_blocks_are_closed,
    images_of_legal_journals_verify, transcripts_agree_behind_the_past,
};

/// Once all seats were joined into one, what it wrote is that of a run of all sessions together: in whatever
/// order their visits came, the transcripts agree behind the past with the ledger's cell in the order in which the
/// seat has them, where all other sessions began when the first was known to be over, and no two have one name.
pub fn joined_runs_behind_a_past_agree()
    ensures { (v : Server) (database : Text) (size : ℕ) (past : Past) (start : RunStart v database size past)
        (cells : List Cell) (w : Written) (ws : List Written) → IsJoinedBehind start cells (w ∷ ws)
        → KnewThatOver w ws → NamesApart (names_in (transcripts_in (w ∷ ws)))
        → (ledger : LedgerCell) → get_elem? cells ledger_at ≡ some (Ledger ledger)
        → RanTogetherBehind v past (w ∷ ws) ledger }
{
    transcripts_agree_behind_the_past();
    agreement_behind_a_past_is_of_any_order();
}

/// Any two meanings that statements have by one grammar, where blocks are hashed with one hash, are one behind a past
/// too: what agrees with the first does with the second.
pub fn statements_have_one_meaning_behind_a_past()
    ensures { (h : List ℕ → List ℕ) (reads : Reading) (q r : Meaning)
        → IsMeaning h reads q → IsMeaning h reads r → (database : Text) (past : Past) (input : List InputSession)
        (setup : Option ℕ) (X : List Transcript) (J : List JournalItem) (G : List Digest)
        → AgreeBehind q database past input setup X J G → AgreeBehind r database past input setup X J G }
{}

/// What is left where all seats of a server were joined into one is that of a run of the input behind the past in
/// which `setup` came first and all other sessions ran side by side: transcripts, images, journal and digests agree
/// by every meaning that statements have, all that the transcripts show stands in one order, the journal is a
/// legal one, and each image is accepted with the digests whose blocks are closed in it, as those before it in
/// that order are, and with those of the past. New commits and digests have some of these moments. Where nothing
/// came before, it is that of a run without a past.
pub fn runs_side_by_side_behind_a_past_agree()
    ensures behind { (h : List ℕ → List ℕ) (database : Text) (size : ℕ) (past : Past) (moments : List ℕ)
        (input : List InputSession) (r : RunResult)
        → HasJoinedBehind h database size past (λ time. In time moments) input r
        → CameToBehind h database size past (λ time. In time moments) input r }
    ensures first { (h : List ℕ → List ℕ) (database : Text) (size : ℕ) (moments : List ℕ)
        (input : List InputSession) (r : RunResult)
        → HasJoinedBehind h database size no_past (λ time. In time moments) input r
        → CameTo h database size (λ time. In time moments) input r }
{
    joined_runs_behind_a_past_agree();
    statements_have_one_meaning();
    statements_have_one_meaning_behind_a_past();
    images_of_legal_journals_verify();
    digests_are_held_where_their_blocks_are_closed();
    without_a_past_nothing_else_is_meant();
}
