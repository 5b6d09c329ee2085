//! Why a text has no statement.

ghost use Rattle.std.specs.Prelude.{◌≡◌};
ghost use Rattle.spec_syntax.specs.declared.parse_err.ParseErr.TheVariants as parse_err;

use base_types::Memory;

/// Why a text has no statement.
#[derive(Clone, Copy, Debug, PartialEq, Eq)]
pub enum ParseErr {
    /// The text is outside the grammar.
    Syntax,
    /// There is no more memory.
    Memory,
}

impl From<Memory> for ParseErr {
    ghost from_gives = { λ _ e. e ≡ parse_err.Memory };

    fn from(_: Memory) -> ParseErr {
        ParseErr::Memory
    }
}
