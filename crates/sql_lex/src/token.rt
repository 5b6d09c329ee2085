//! Tokens and their kinds.

use base_types::Memory;

/// What a token is.
#[derive(Clone, Copy, Debug, PartialEq, Eq)]
pub enum Kind {
    /// A bare name or a keyword.
    Word,
    /// A name in square brackets.
    Bracketed,
    /// A number without a sign, of at most 38 digits.
    Number,
    /// A text in quotes, with an `N` before it or without.
    Text,
    /// `0x` and pairs of hexadecimal digits.
    Bytes,
    /// One of `( ) , ; = <> != < <= > >= + - * .`.
    Sign,
}

/// A token: its kind, and the bytes of the text that it is, from `start` on and before `end`.
#[derive(Clone, Copy, Debug, PartialEq, Eq)]
pub struct Token {
    pub start: usize,
    pub end: usize,
    pub kind: Kind,
}

/// Why a text has no list of tokens.
#[derive(Clone, Copy, Debug, PartialEq, Eq)]
pub enum LexErr {
    /// A token must begin at this byte, and none does. It is the first such byte.
    Bad { at: usize },
    /// There is no more memory.
    Memory,
}

impl From<Memory> for LexErr {
    ghost use Rattle.std.specs.Prelude.{◌≡◌};
    ghost use Rattle.sql_lex.specs.declared.token.LexErr.TheVariants as lex_err;

    ghost from_gives = { λ _ e. e ≡ lex_err.Memory };

    fn from(_: Memory) -> LexErr {
        LexErr::Memory
    }
}
