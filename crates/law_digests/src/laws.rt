//! Laws of the lengths of digest files.

ghost use Rattle.std.specs.Prelude.{ℕ, ◌≡◌, ◌≤◌, ◌*◌, List, length, None, Option, Some};
ghost use Rattle.sql_types.specs.declared.digest.Digest.{Digest};
ghost use Rattle.sql_types.specs.declared.journal.JournalItem.{JournalItem};
ghost use Rattle.sql_types.specs.declared.statement.Stmt.TheVariants as stmt;
ghost use Rattle.spec_history.specs.Inputs.{InputSession};
ghost use Rattle.spec_history.specs.Lists.{Text};
ghost use Rattle.spec_history.specs.Meaning.{Meaning};
ghost use Rattle.spec_history.specs.Transcripts.{Transcript};
ghost use Rattle.spec_syntax.specs.Text.{statement_of};
ghost use Rattle.format_lines.specs.Line.{Statement};
ghost use Rattle.format_sections.specs.RunSections.{RunSections};
ghost use Rattle.law_digests.specs.Issued.{AgreeOnDigests, AreIssued, AreLinesOf, AreSectionsOf, ReadsSo, input_bytes, sessions_of_lines, sessions_of_sections};
ghost use Rattle.law_digests.specs.Size.{digests_limit, least_line};

use crate::inputs::statements_are_within_their_input;
use law_syntax::versions_keep_to_the_grammar;

/// A statement that issues a digest has the bytes of its two words at least.
pub fn digest_statements_have_their_length()
    ensures { (text : Text) → statement_of text ≡ Some stmt.Digest → 38 ≤ length text }
{
    versions_keep_to_the_grammar();
}

/// Each digest that was issued was asked for by a statement of its own: so many lines that issue one stand in
/// the sessions of the input.
pub fn digests_are_no_more_than_their_lines()
    ensures { (q : Meaning) (database : Text) (input : List InputSession) (setup : Option ℕ)
        (X : List Transcript) (J : List JournalItem) (G : List Digest)
        → ReadsSo q → AgreeOnDigests q database input setup X J G
        → length G * least_line ≤ input_bytes input }
{
    digest_statements_have_their_length();
}

/// The file of the digests that the run of one input issued has at most 32 MiB, the most that is read of such a
/// file: of lines, and of sections with their setup. An input has at most 4 MiB.
pub fn digest_files_can_be_read()
    ensures lines { (q : Meaning) (database : Text) (bytes : List ℕ) (statements : List Statement)
        (J : List JournalItem) (G : List Digest) (file : List ℕ)
        → AreLinesOf bytes statements
        → AreIssued q database (sessions_of_lines statements) None J G file
        → length file ≤ digests_limit }
    ensures sections { (q : Meaning) (database : Text) (bytes : List ℕ) (all_sections : RunSections)
        (J : List JournalItem) (G : List Digest) (file : List ℕ)
        → AreSectionsOf bytes all_sections
        → AreIssued q database (sessions_of_sections all_sections) (Some 0) J G file
        → length file ≤ digests_limit }
{
    digests_are_no_more_than_their_lines();
    statements_are_within_their_input();
}
