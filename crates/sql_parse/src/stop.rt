//! Where the reading of a text stops that is no statement.

ghost use Rattle.std.specs.Prelude.{◌≡◌, All, IfOk, IfSome, None, Ok, Some, map};
ghost use Rattle.sql_lex.specs.Spans.{IsSpan};
ghost use Rattle.sql_types.specs.declared.statement.Stmt.{Stmt};
ghost use Rattle.spec_syntax.specs.Stmt.{statement_of_tokens};
ghost use Rattle.spec_syntax.specs.Text.{sym_of, grammar_statement_of};

use crate::cursor::Cursor;
use crate::stmt::statement;
use crate::text::pieces;
use base_types::Memory;
use spec_syntax::ParseErr;
use sql_lex::{LexErr, Token, tokens};
use std::alloc::Global;

/// Where reading stopped, for whom it is to be told.
#[derive(Clone, Copy, Debug)]
pub struct Stop<'a> {
    /// The token that wasn't wanted, or the character that begins none. It is empty at the end of the text.
    pub word: &'a str,
    /// The number of its first character among those of the text, from 1.
    pub column: usize,
}

fn stop_at<'a>(text: &str, at: usize, word: &'a str) -> Stop<'a> {
    let before = text.char_indices().take_while(|(start, _)| *start < at);
    Stop {
        word,
        column: before.count().saturating_add(1),
    }
}

/// The stop at a character that begins no token.
fn stop_at_character(text: &str, at: usize) -> Stop<'_> {
    let rest = text.get(at..).unwrap_or("");
    let end = rest.chars().next().map_or(0, |c| c.len_utf8());
    stop_at(text, at, rest.get(..end).unwrap_or(rest))
}

/// The stop at the token behind so many.
fn stop_behind<'a>(text: &'a str, tokens: &[Token], count: usize) -> Stop<'a> {
    match tokens.get(count) {
        Some(token) => {
            let word = text.get(token.start..token.end).unwrap_or("");
            stop_at(text, token.start, word)
        }
        None => stop_at(text, text.len(), ""),
    }
}

/// Where the reading of these tokens of the text stops, if they are no statement. The cursor never goes back.
fn stop_among<'a>(
    alloc: Global,
    text: &'a str,
    tokens: &[Token],
) -> Result<Option<Stop<'a>>, Memory>
    requires { All (IsSpan text.now) tokens.now }
    ensures none { result ≡ Ok None
        → (s : Stmt) × (statement_of_tokens (map (sym_of text.now) tokens.now) ≡ Some s) }
    ensures some { IfOk result (λ stop. IfSome stop
        (λ at. statement_of_tokens (map (sym_of text.now) tokens.now) ≡ None)) }
{
    let all = pieces(alloc, text, tokens)?;
    let mut cursor = Cursor::new(all.as_slice());
    match statement(alloc, &mut cursor) {
        Ok(found) => {
            drop(found);
            Ok(None)
        }
        Err(ParseErr::Memory) => Err(Memory),
        Err(ParseErr::Syntax) => {
            let read = tokens.len().saturating_sub(cursor.tokens_left());
            Ok(Some(stop_behind(text, tokens, read)))
        }
    }
}

/// Where the reading of a text stops that is no statement; none where it is one. That the place is the right one no
/// clause says.
#[tactic(auto, unfolding(spec_syntax::specs::Text::grammar_statement_of))]
pub fn stop_of<'a>(alloc: Global, text: &'a str) -> Result<Option<Stop<'a>>, Memory>
    ensures none { result ≡ Ok None → (s : Stmt) × (grammar_statement_of text.now ≡ Some s) }
    ensures some { IfOk result (λ stop. IfSome stop (λ at. grammar_statement_of text.now ≡ None)) }
{
    match tokens(alloc, text) {
        Ok(found) => stop_among(alloc, text, found.as_slice()),
        Err(LexErr::Bad { at }) => Ok(Some(stop_at_character(text, at))),
        Err(LexErr::Memory) => Err(Memory),
    }
}
