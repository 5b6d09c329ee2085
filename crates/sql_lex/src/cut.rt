//! All tokens of a text.

ghost use Rattle.std.specs.Prelude.{◌≡◌, ℕ, All, Ok, Err, IfOk, length};
ghost use Rattle.sql_lex.specs.Cut as spec;
ghost use Rattle.sql_lex.specs.Cut.{tokens_of};
ghost use Rattle.sql_lex.specs.Spans.{Rise, IsSpan};

use crate::front::{byte, longest};
use crate::token::{LexErr, Token};
use base_types::Items;
use std::alloc::Global;

fn is_blank(b: u8) -> bool
    ensures { result ≡ spec.is_blank b }
{
    b == b' ' || b == b'\t'
}

fn begins_comment(z: &[u8]) -> bool
    ensures { result ≡ spec.begins_comment z.now }
{
    byte(z, 0) == b'-' && byte(z, 1) == b'-'
}

// The tokens, by the definition alone.
fn cut(alloc: Global, text: &str) -> Result<Items<Token>, LexErr>
    ensures found { IfOk result (λ found. tokens_of text.now ≡ Ok found) }
    ensures bad { (at : ℕ) → result ≡ Err (LexErr.Bad at) → tokens_of text.now ≡ Err at }
{
    let mut rest = text.as_bytes();
    let mut found = Items::new(alloc);
    let mut at = 0;
    while !rest.is_empty() {
        if is_blank(rest[0]) {
            at += 1;
            rest = &rest[1..];
        } else if begins_comment(rest) {
            return Ok(found);
        } else {
            let Some((kind, len)) = longest(rest) else {
                return Err(LexErr::Bad { at });
            };
            let end = at + len;
            found.push(Token {
                start: at,
                end,
                kind,
            })?;
            at = end;
            rest = &rest[len..];
        }
    }
    Ok(found)
}

/// The tokens of a text, each the longest that begins at its place, with blanks (spaces and tabs) and a
/// comment at the end left out. It takes time linear in the text.
pub fn tokens(alloc: Global, text: &str) -> Result<Items<Token>, LexErr>
    ensures found { IfOk result (λ found. tokens_of text.now ≡ Ok found) }
    ensures bad { (at : ℕ) → result ≡ Err (LexErr.Bad at) → tokens_of text.now ≡ Err at }

    // The tokens are pieces of the text, one behind the other.
    ensures rise { IfOk result (λ found. Rise 0 found (length text.now)) }
    ensures spans { IfOk result (All (IsSpan text.now)) }
{
    cut(alloc, text)
}
