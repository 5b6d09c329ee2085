//! A text as a statement.

ghost use Rattle.std.specs.Prelude.{◌≡◌, Err, IfOk, All, map};
ghost use Rattle.sql_lex.specs.Spans.{IsSpan};
ghost use Rattle.sql_types.specs.declared.statement.Stmt.{Stmt};
ghost use Rattle.sql_types.specs.Versions as versions;
ghost use Rattle.law_syntax.specs.Statements.{IsStatement};
ghost use Rattle.spec_syntax.specs.declared.parse_err.ParseErr.TheVariants as parse_err;
ghost use Rattle.spec_syntax.specs.Input.{ConvertsUnlessOom, syms};
ghost use Rattle.spec_syntax.specs.Stmt.{statement_of_tokens};
ghost use Rattle.spec_syntax.specs.Text.{sym_of, grammar_statement_of, reading_of, statement_of};

use crate::cursor::Cursor;
use crate::stmt::statement;
use base_types::{Items, Memory};
use spec_syntax::{ParseErr, Piece, tag_of};
use sql_lex::{LexErr, Token, tokens};
use sql_types::{JOURNAL_VERSION, Stmt};
use std::alloc::Global;

#[tactic(auto, unfolding(spec_syntax::specs::Text::sym_of))]
fn piece<'a>(text: &'a str, token: &Token) -> Piece<'a>
    requires { IsSpan text.now token.now }
    ensures { (result.tag, result.text.now) ≡ sym_of text.now token.now }
{
    let word = &text[token.start..token.end];
    Piece {
        tag: tag_of(token.kind, word.as_bytes()),
        text: word,
    }
}

pub(crate) fn pieces<'a>(
    alloc: Global,
    text: &'a str,
    tokens: &[Token],
) -> Result<Items<Piece<'a>>, Memory>
    requires { All (IsSpan text.now) tokens.now }
    ensures { IfOk result (λ v. syms v ≡ map (sym_of text.now) tokens.now) }
{
    let mut found = Items::new(alloc);
    for token in tokens {
        found.push(piece(text, token))?;
    }
    Ok(found)
}

/// The statement of these tokens of the text.
fn read(alloc: Global, text: &str, tokens: &[Token]) -> Result<Stmt, ParseErr>
    requires { All (IsSpan text.now) tokens.now }
    ensures { ConvertsUnlessOom (statement_of_tokens (map (sym_of text.now) tokens.now)) result }
{
    let all = pieces(alloc, text, tokens)?;
    statement(alloc, &mut Cursor::new(all.as_slice()))
}

#[tactic(auto, unfolding(spec_syntax::specs::Text::grammar_statement_of))]
fn read_text(alloc: Global, text: &str) -> Result<Stmt, ParseErr>
    ensures { ConvertsUnlessOom (grammar_statement_of text.now) result }
{
    match tokens(alloc, text) {
        Ok(found) => read(alloc, text, found.as_slice()),
        Err(LexErr::Bad { .. }) => Err(ParseErr::Syntax),
        Err(LexErr::Memory) => Err(ParseErr::Memory),
    }
}

/// The statement that a text is by the grammar, whatever the version, and `Syntax` exactly for a text that is
/// none, but for want of memory. It takes time linear in the text, but for the names of a CREATE TABLE, each of
/// which is compared with those of its key. Its calls nest no deeper than the parentheses, of which 256 may.
pub fn parse_any(alloc: Global, text: &str) -> Result<Stmt, ParseErr>
    ensures read { ConvertsUnlessOom (grammar_statement_of text.now) result }
    ensures found { IfOk result (λ s. IsStatement text.now s) }
    ensures refused { result ≡ Err parse_err.Syntax → (s : Stmt) → IsStatement text.now s → ⊥ }
{
    read_text(alloc, text)
}

/// Whether journals of the version have the statement.
fn has_statement(version: u8, s: &Stmt) -> bool
    ensures { result ≡ versions.has_statement version s.now }
{
    match s {
        Stmt::Alter(_) | Stmt::Drop(_) => version >= 2,
        _ => true,
    }
}

/// The statement that a text is in journals of the version, and `Syntax` exactly for a text that is none
/// there, but for want of memory. It costs what `parse_any` costs.
#[tactic(auto, unfolding(spec_syntax::specs::Text::reading_of))]
pub fn parse_in(alloc: Global, text: &str, version: u8) -> Result<Stmt, ParseErr>
    ensures { ConvertsUnlessOom (reading_of version text.now) result }
{
    let found = parse_any(alloc, text)?;
    if has_statement(version, &found) {
        Ok(found)
    } else {
        // that each part is let go is then proved once for the type
        drop(found);
        Err(ParseErr::Syntax)
    }
}

/// The statement that a text is where a server runs, and `Syntax` exactly for a text that is none there, but
/// for want of memory. It costs what `parse_any` costs.
pub fn parse(alloc: Global, text: &str) -> Result<Stmt, ParseErr>
    ensures { ConvertsUnlessOom (statement_of text.now) result }
{
    parse_in(alloc, text, JOURNAL_VERSION)
}
