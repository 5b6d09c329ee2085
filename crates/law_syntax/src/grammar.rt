//! What the parser, the printer and the grammar are to each other.

ghost use Rattle.std.specs.Prelude.{◌≡◌, ℕ, true, List, Some};
ghost use Rattle.sql_types.specs.declared.statement.Stmt.{Stmt};
ghost use Rattle.sql_types.specs.Versions.{has_statement};
ghost use Rattle.spec_grammar.specs.Statements.{IsStatement};
ghost use Rattle.spec_syntax.specs.PrintedStmt.{printed};
ghost use Rattle.spec_syntax.specs.Text.{grammar_statement_of, reading_of};

use law_printing::printing_is_read_back;

/// The parser reads the statements of the grammar and nothing else. A text is one statement at most, and
/// what is printed of a statement is that statement.
pub fn parsing_keeps_to_the_grammar()
    ensures sound { (text : List ℕ) (s : Stmt) → grammar_statement_of text ≡ Some s → IsStatement text s }
    ensures complete { (text : List ℕ) (s : Stmt) → IsStatement text s → grammar_statement_of text ≡ Some s }
    ensures unique { (text : List ℕ) (s u : Stmt) → IsStatement text s → IsStatement text u → s ≡ u }
    ensures printed { (text : List ℕ) (s : Stmt) → IsStatement text s → IsStatement (printed s) s }
{
    printing_is_read_back();
}

/// What a text is in journals of a version is what it is by the grammar, and nothing where the version hasn't
/// the statement.
pub fn versions_keep_to_the_grammar()
    ensures sound { (version : ℕ) (text : List ℕ) (s : Stmt) → reading_of version text ≡ Some s
        → IsStatement text s }
    ensures complete { (version : ℕ) (text : List ℕ) (s : Stmt) → IsStatement text s
        → has_statement version s ≡ true → reading_of version text ≡ Some s }
    ensures had { (version : ℕ) (text : List ℕ) (s : Stmt) → reading_of version text ≡ Some s
        → has_statement version s ≡ true }
{
    parsing_keeps_to_the_grammar();
}
