//! What is spelled by the system tables of a journal whose statements the grammar gives.

ghost use Rattle.std.specs.Prelude.{ℕ, List};
ghost use Rattle.sql_types.specs.declared.journal.JournalItem.{JournalItem};
ghost use Rattle.spec_model.specs.Journals.{cut, serial, IsLegal};
ghost use Rattle.spec_model.specs.Script.{Reading};
ghost use Rattle.spec_syntax.specs.Text.{reading_of, statement_of};
ghost use Rattle.law_catalog_rows.specs.Differs.{EncodingHolds};
ghost use Rattle.law_catalog_rows.specs.Encoded.{AreEncodedByRows};
ghost use Rattle.law_catalog_rows.specs.Written.{ReadsWritten};
ghost use Rattle.law_catalog_text.specs.Readings.{KeepsToTheGrammar};

use law_catalog_rows::legal_journals_encode_definitions;
use law_printing::printing_is_read_back;
use law_syntax::{parsing_keeps_to_the_grammar, versions_keep_to_the_grammar};

/// Each table and each index that a statement of the grammar makes has a name with bytes that may stand in
/// names, a column, and where it is a table a key. Each column that one adds has such a name too. The reading
/// of journals of each version keeps to the grammar, the parser's among them.
pub fn readings_of_the_grammar_give_written()
    ensures written { (reads : Reading) → KeepsToTheGrammar reads → ReadsWritten reads }
    ensures versions { (version : ℕ) → KeepsToTheGrammar (reading_of version) }
    ensures parser { KeepsToTheGrammar statement_of }
{
    parsing_keeps_to_the_grammar();
    printing_is_read_back();
    versions_keep_to_the_grammar();
}

/// Where each statement that is read is one of the grammar, as with the parser's reading, the rows that stand
/// in the system tables of a legal journal, at each cut, spell exactly the definitions of all other tables,
/// and no fault is found in the spelling.
pub fn journals_of_the_grammar_encode_definitions()
    ensures spelled { (reads : Reading) (items : List JournalItem) (m : ℕ)
        → KeepsToTheGrammar reads → IsLegal reads items → AreEncodedByRows (serial reads (cut items m)) }
    ensures holds { (reads : Reading) (items : List JournalItem) (m : ℕ)
        → KeepsToTheGrammar reads → IsLegal reads items → EncodingHolds (serial reads (cut items m)) }
    ensures parsed { (items : List JournalItem) (m : ℕ)
        → IsLegal statement_of items → EncodingHolds (serial statement_of (cut items m)) }
{
    readings_of_the_grammar_give_written();
    legal_journals_encode_definitions();
}
