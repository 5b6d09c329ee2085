//! What the texts of a snapshot are answered over.

ghost use Rattle.std.specs.Prelude.{◌≡◌, ℕ, List, Option, map};
ghost use Rattle.sql_types.specs.declared.journal.Journal.{Journal};
ghost use Rattle.sql_types.specs.declared.statement.Stmt.{Stmt};
ghost use Rattle.spec_model.specs.Journals.{cut, serial};
ghost use Rattle.spec_model.specs.LegalJournals.{IsLegalJournal};
ghost use Rattle.spec_history.specs.Lists.{Text};
ghost use Rattle.spec_syntax.specs.Text.{statement_of};
ghost use Rattle.format_image.specs.Image.{image_of_cut};
ghost use Rattle.format_image.specs.Rows.{filled_table};
ghost use Rattle.spec_asof.specs.Answer.{answer_of};
ghost use Rattle.server_reader.specs.Answered.{AreAnsweredOver, whole_database};

use law_asof::images_tell_earlier_databases;
use law_blocks::entries_and_blocks_are_counted;
use law_catalog_text::readings_of_the_grammar_give_written;

/// What a text is answered over the database of a snapshot is the answer over the tables to which the part of the
/// journal leads whose image was kept, run by one thread in ledger order; and these tables are that database, each
/// version with a value for each column of its table. So the entries of a snapshot are the answers over these tables.
pub fn snapshots_are_of_serial_runs()
    ensures answers { (h : List ℕ → List ℕ) (j : Journal) (m : ℕ) (text : Option Stmt) → IsLegalJournal statement_of j
        → answer_of (whole_database (image_of_cut h statement_of j.database j.items m)) text
        ≡ answer_of (serial statement_of (cut j.items m)) text }
    ensures tables { (h : List ℕ → List ℕ) (j : Journal) (m : ℕ) → IsLegalJournal statement_of j
        → whole_database (image_of_cut h statement_of j.database j.items m)
        ≡ map filled_table (serial statement_of (cut j.items m)) }
    ensures each { (h : List ℕ → List ℕ) (j : Journal) (m : ℕ) (name : Text) (texts entries : List Text)
        → IsLegalJournal statement_of j
        → AreAnsweredOver (whole_database (image_of_cut h statement_of j.database j.items m)) name texts entries
        → AreAnsweredOver (serial statement_of (cut j.items m)) name texts entries }
{
    readings_of_the_grammar_give_written();
    entries_and_blocks_are_counted();
    images_tell_earlier_databases();
}
