//! What printing and parsing are to each other.

ghost use Rattle.std.specs.Prelude.{◌≡◌, ℕ, List, Some};
ghost use Rattle.sql_types.specs.declared.statement.Stmt.{Stmt};
ghost use Rattle.spec_syntax.specs.Parsed.{IsParsed};
ghost use Rattle.spec_syntax.specs.PrintedStmt.{printed};
ghost use Rattle.spec_syntax.specs.Text.{grammar_statement_of};

use sql_scalar::literals_are_read_back;
use sql_value::expressions_are_trees;

/// What is printed of a statement that parsing can give is parsed as that statement. Parsing gives statements
/// that keep to `IsParsed` alone, and of each of these the same holds.
pub fn printing_is_read_back()
    ensures again { (text : List ℕ) (s : Stmt) → grammar_statement_of text ≡ Some s
        → grammar_statement_of (printed s) ≡ Some s }
    ensures parsed { (text : List ℕ) (s : Stmt) → grammar_statement_of text ≡ Some s → IsParsed s }
    ensures read { (s : Stmt) → IsParsed s → grammar_statement_of (printed s) ≡ Some s }
{
    literals_are_read_back();
    expressions_are_trees();
}
