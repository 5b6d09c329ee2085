//! Laws of the images that are saved.

ghost use Rattle.std.specs.Prelude.{ℕ, ◌≡◌, List, Option, None, Some, length};
ghost use Rattle.sql_types.specs.declared.digest.Digest.{Digest};
ghost use Rattle.sql_types.specs.declared.digest.HeldDigest.{HeldDigest};
ghost use Rattle.sql_types.specs.declared.image.Image.{Image};
ghost use Rattle.sql_types.specs.declared.journal.Journal.{Journal};
ghost use Rattle.spec_model.specs.Journals.{cut};
ghost use Rattle.spec_model.specs.LegalJournals.{IsLegalJournal};
ghost use Rattle.spec_history.specs.Inputs.{InputLine, InputSession, sessions_in};
ghost use Rattle.spec_history.specs.Lists.{Text};
ghost use Rattle.spec_history.specs.Transcripts.{Transcript};
ghost use Rattle.spec_syntax.specs.Text.{statement_of};
ghost use Rattle.format_image.specs.ImageBytes.{image_bytes, IsImage};
ghost use Rattle.spec_protocol.specs.Seats.{KeptImage};
ghost use Rattle.spec_verify.specs.declared.place.Verdict.TheVariants.{Yes};
ghost use Rattle.spec_verify.specs.Bytes.{verdict_of};
ghost use Rattle.law_image.specs.Room.{FitsImageFormat};
ghost use Rattle.law_kept_images.specs.Held.{AllHeld};
ghost use Rattle.law_kept_images.specs.SessionOutput.{RunAgrees};
ghost use Rattle.law_concurrent.specs.CameTo.{CameTo, RunResult};
ghost use Rattle.server_result.specs.Images.{AreKept};
ghost use Rattle.server_result.specs.Moments.{IsMoment, said_with};
ghost use Rattle.law_headline.specs.Before.{InOneOrder, InOrderOfLines};
ghost use Rattle.law_headline.specs.Headline.{Headline, IsBoundBy, image_at};

use base_io::Clock;
use format_event::equal_leaves_are_of_equal_events;
use law_catalog_text::readings_of_the_grammar_give_written;
use law_image::legal_images_are_encodable;
use law_kept_images::{
    digests_before_an_image_are_closed_in_it, images_of_legal_journals_verify,
    kept_images_are_accepted,
};

/// Whatever is accepted with digests with which an image is accepted has the same covered transactions and row
/// versions under each of them, or two different strings of bytes, hashed at one place of the two images, have
/// one hash, whatever hash of 32 bytes it is.
pub fn accepted_images_are_bound()
    ensures { (h : List ℕ → List ℕ) (i : Image) (digests : List HeldDigest)
        → ((bytes : List ℕ) → length (h bytes) ≡ 32) → IsImage i
        → verdict_of h digests (image_bytes i) ≡ Yes → IsBoundBy h i digests }
{
    equal_leaves_are_of_equal_events();
}

/// For every legal journal and each of its cuts, the image is accepted with any digests of blocks that are
/// closed there, and whatever is accepted with them is bound to it. The whole journal's image has room in its
/// format.
pub fn images_of_legal_journals_are_bound()
    ensures { (h : List ℕ → List ℕ) (J : Journal) (m : ℕ) (digests : List HeldDigest)
        → IsLegalJournal statement_of J → FitsImageFormat h statement_of J.database J.items
        → AllHeld h statement_of J.database (cut J.items m) digests
        → IsBoundBy h (image_at h J m) digests }
{
    accepted_images_are_bound();
    images_of_legal_journals_verify();
    readings_of_the_grammar_give_written();
    legal_images_are_encodable();
}

/// Every saved image is that of its committed transactions run by one thread in ledger order with the replies
/// given, and `verify` says Yes of it with every digest issued before; and whatever `verify` says Yes of with
/// those digests has the same covered transactions and row versions, or two different strings of bytes, hashed
/// at one place of the two images, have one hash. So it is of a run of lines on one thread, and of sessions side
/// by side, however the turns of sessions and builder fell, where the image of the whole journal has room in its
/// format.
pub fn saved_images_are_serial_and_tamper_evident<C: Clock>()
    ensures one_thread { (h : List ℕ → List ℕ) (size : ℕ) (names : List Text) (lines : List InputLine)
        (X : List Transcript) (kept : List (List KeptImage)) (images : List KeptImage) (J : Journal)
        (G : List Digest)
        → RunAgrees h statement_of J.database size names lines X kept J.items G
        → IsLegalJournal statement_of J → FitsImageFormat h statement_of J.database J.items
        → AreKept kept images
        → Headline h (sessions_in lines names) None (InOrderOfLines size lines X J.items)
        (record { X = X; images = images; J = J; G = G }) }
    ensures side_by_side { (h : List ℕ → List ℕ) (database : Text) (size : ℕ) (given : Option ℕ) (clock : C)
        (input : List InputSession) (left : RunResult) (images : List KeptImage)
        → CameTo h database size (IsMoment (said_with given (C.says clock))) input left
        → FitsImageFormat h statement_of left.J.database left.J.items → AreKept left.kept images
        → Headline h input (Some 0) (InOneOrder left.X left.J.items)
        (record { X = left.X; images = images; J = left.J; G = left.G }) }
{
    accepted_images_are_bound();
    kept_images_are_accepted();
    readings_of_the_grammar_give_written();
    legal_images_are_encodable();
    digests_before_an_image_are_closed_in_it();
}
