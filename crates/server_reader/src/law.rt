//! A law of the images that snapshots keep.

ghost use Rattle.std.specs.Prelude.{ℕ, List};
ghost use Rattle.sql_types.specs.declared.journal.Journal.{Journal};
ghost use Rattle.spec_model.specs.LegalJournals.{IsLegalJournal};
ghost use Rattle.spec_syntax.specs.Text.{statement_of};
ghost use Rattle.law_image.specs.Room.{FitsImageFormat};
ghost use Rattle.format_image.specs.Image.{image_of_cut};
ghost use Rattle.format_image.specs.ImageBytes.{IsImage};

use law_accepts::cuts_have_room_where_journals_have;
use law_catalog_text::readings_of_the_grammar_give_written;
use law_image::legal_images_are_encodable;

/// Each part of a legal journal has an image with a spelling, where that of the whole journal has room in the format.
pub fn images_of_cuts_are_encodable()
    ensures { (h : List ℕ → List ℕ) (j : Journal) (m : ℕ) → IsLegalJournal statement_of j
        → FitsImageFormat h statement_of j.database j.items
        → IsImage (image_of_cut h statement_of j.database j.items m) }
{
    readings_of_the_grammar_give_written();
    legal_images_are_encodable();
    cuts_have_room_where_journals_have();
}
