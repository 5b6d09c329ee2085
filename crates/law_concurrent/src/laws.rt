//! What is left of a run of sessions side by side.

ghost use Rattle.std.specs.Prelude.{ℕ, ◌≡◌, ◌∷◌, List, Option};
ghost use mathlib.Core.Option.{some};
ghost use lib.ListN.{get_elem?};
ghost use Rattle.sql_types.specs.declared.digest.Digest.{Digest};
ghost use Rattle.sql_types.specs.declared.journal.JournalItem.{JournalItem};
ghost use Rattle.spec_model.specs.Script.{Reading};
ghost use Rattle.spec_history.specs.Agree.{Agree};
ghost use Rattle.spec_history.specs.Facts.{facts_of};
ghost use Rattle.spec_history.specs.Inputs.{InputSession};
ghost use Rattle.spec_history.specs.Lists.{In, Text};
ghost use Rattle.spec_history.specs.Meaning.{Meaning};
ghost use Rattle.spec_history.specs.Transcripts.{Transcript};
ghost use Rattle.spec_protocol.specs.Cells.{Cell, Ledger, LedgerCell, ledger_at};
ghost use Rattle.spec_protocol.specs.Reordered.{NamesApart};
ghost use Rattle.spec_protocol.specs.Seats.{Written};
ghost use Rattle.spec_protocol.specs.Server.{Server};
ghost use Rattle.law_kept_images.specs.SessionOutput.{IsMeaning};
ghost use Rattle.law_kept_images.specs.Wrote.{transcripts_in};
ghost use Rattle.law_concurrent.specs.CameTo.{CameTo, RunResult};
ghost use Rattle.law_concurrent.specs.Joined.{IsJoined, KnewThatOver};
ghost use Rattle.law_concurrent.specs.Threads.{HasJoined};
ghost use Rattle.law_concurrent.specs.Together.{RanTogether, names_in};

use crate::behind::statements_have_one_meaning_behind_a_past;
use law_behind::without_a_past_nothing_else_is_meant;
use law_kept_images::{
    digests_are_held_where_their_blocks_are_closed, images_of_legal_journals_verify,
};
use law_order::histories_are_in_one_order;

/// Once all seats were joined into one, what it wrote is that of a run of all sessions together: in whatever
/// order their visits came, the transcripts agree with the ledger's cell in the order in which the seat has
/// them, where all other sessions began when the first was known to be over, and no two have one name.
pub fn runs_of_joined_seats_agree()
    ensures { (v : Server) (cells : List Cell) (w : Written) (ws : List Written) → IsJoined v cells (w ∷ ws)
        → KnewThatOver w ws → NamesApart (names_in (transcripts_in (w ∷ ws)))
        → (ledger : LedgerCell) → get_elem? cells ledger_at ≡ some (Ledger ledger)
        → RanTogether v (w ∷ ws) ledger }
{
    histories_are_in_one_order();
}

/// Any two meanings that statements have by one grammar, where blocks are hashed with one hash, are one: what
/// agrees by the rules of agreement with the first does with the second, and a transcript shows the same
/// facts by both.
pub fn statements_have_one_meaning()
    ensures agree { (h : List ℕ → List ℕ) (reads : Reading) (q r : Meaning)
        → IsMeaning h reads q → IsMeaning h reads r → (database : Text) (input : List InputSession)
        (setup : Option ℕ) (X : List Transcript) (J : List JournalItem) (G : List Digest)
        → Agree q database input setup X J G → Agree r database input setup X J G }
    ensures facts { (h : List ℕ → List ℕ) (reads : Reading) (q r : Meaning)
        → IsMeaning h reads q → IsMeaning h reads r → (x : Transcript) → facts_of q x ≡ facts_of r x }
{}

/// What is left where all seats of a server were joined into one is that of a run of the input in which
/// `setup` came first and all other sessions ran side by side: transcripts, images, journal and digests agree
/// by every meaning that statements have, all that the transcripts show stands in one order, the journal is a
/// legal one, and each image is accepted with the digests whose blocks are closed in it, as those before it in
/// that order are. Commits and digests have some of these moments.
pub fn runs_side_by_side_agree()
    ensures { (h : List ℕ → List ℕ) (database : Text) (size : ℕ) (moments : List ℕ)
        (input : List InputSession) (r : RunResult)
        → HasJoined h database size (λ time. In time moments) input r
        → CameTo h database size (λ time. In time moments) input r }
{
    runs_of_joined_seats_agree();
    statements_have_one_meaning();
    images_of_legal_journals_verify();
    digests_are_held_where_their_blocks_are_closed();
    statements_have_one_meaning_behind_a_past();
    without_a_past_nothing_else_is_meant();
}
