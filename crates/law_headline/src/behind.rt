//! Laws of the images that are saved in a run which goes on from a journal.

ghost use Rattle.std.specs.Prelude.{ℕ, List, Option, None, Some};
ghost use Rattle.sql_types.specs.declared.digest.Digest.{Digest};
ghost use Rattle.sql_types.specs.declared.journal.Journal.{Journal};
ghost use Rattle.spec_model.specs.LegalJournals.{IsLegalJournal};
ghost use Rattle.spec_history.specs.Inputs.{InputLine, InputSession, sessions_in};
ghost use Rattle.spec_history.specs.Lists.{Text};
ghost use Rattle.spec_history.specs.Transcripts.{Transcript};
ghost use Rattle.spec_syntax.specs.Text.{statement_of};
ghost use Rattle.spec_protocol.specs.Seats.{KeptImage};
ghost use Rattle.law_image.specs.Room.{FitsImageFormat};
ghost use Rattle.law_behind.specs.Past.{Past};
ghost use Rattle.law_kept_images.specs.OutcomeBehind.{RunAgreesBehind};
ghost use Rattle.law_concurrent.specs.CameTo.{RunResult};
ghost use Rattle.law_concurrent.specs.CameToBehind.{CameToBehind};
ghost use Rattle.server_result.specs.Images.{AreKept};
ghost use Rattle.server_result.specs.Moments.{IsMoment, said_with};
ghost use Rattle.law_headline.specs.BeforeBehind.{InOneOrderBehind, InOrderOfLinesBehind};
ghost use Rattle.law_headline.specs.HeadlineBehind.{HeadlineBehind};

use crate::laws::accepted_images_are_bound;
use base_io::Clock;
use law_catalog_text::readings_of_the_grammar_give_written;
use law_image::legal_images_are_encodable;
use law_kept_images::{
    digests_behind_a_past_are_closed_in_later_images, kept_images_behind_a_past_are_accepted,
};

/// So it is of a run that goes on from a journal: every saved image has all of it, and `verify` says Yes of it with
/// every digest issued before, in this run or ever of that journal, and binds whatever else it says Yes of with them.
pub fn saved_images_behind_a_past_are_serial_and_tamper_evident<C: Clock>()
    ensures one_thread { (h : List ℕ → List ℕ) (size : ℕ) (past : Past) (names : List Text)
        (lines : List InputLine) (X : List Transcript) (kept : List (List KeptImage)) (images : List KeptImage)
        (J : Journal) (G : List Digest)
        → RunAgreesBehind h statement_of J.database size past names lines X kept J.items G
        → IsLegalJournal statement_of J → FitsImageFormat h statement_of J.database J.items
        → AreKept kept images
        → HeadlineBehind h past (sessions_in lines names) None (InOrderOfLinesBehind size past lines X J.items)
        (record { X = X; images = images; J = J; G = G }) }
    ensures side_by_side { (h : List ℕ → List ℕ) (database : Text) (size : ℕ) (past : Past) (given : Option ℕ)
        (clock : C) (input : List InputSession) (left : RunResult) (images : List KeptImage)
        → CameToBehind h database size past (IsMoment (said_with given (C.says clock))) input left
        → FitsImageFormat h statement_of left.J.database left.J.items → AreKept left.kept images
        → HeadlineBehind h past input (Some 0) (InOneOrderBehind past left.X left.J.items)
        (record { X = left.X; images = images; J = left.J; G = left.G }) }
{
    accepted_images_are_bound();
    kept_images_behind_a_past_are_accepted();
    readings_of_the_grammar_give_written();
    legal_images_are_encodable();
    digests_behind_a_past_are_closed_in_later_images();
}
