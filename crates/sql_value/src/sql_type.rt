//! The types of columns.

ghost use Rattle.std.specs.Prelude.{◌≡◌};
ghost use Rattle.sql_value.specs.Stored as spec;

/// The type of a column. A type that was only read may have parameters outside their ranges.
#[derive(Clone, Copy, Debug, PartialEq, Eq)]
pub enum SqlType {
    /// 0 or 1.
    Bit,
    /// A whole number of 32 bits.
    Int,
    /// A whole number of 64 bits.
    BigInt,
    /// Numbers of at most `p` digits, `s` of them after the point. `p` is 1 to 38, and `s` is 0 to `p`.
    Decimal { p: u32, s: u32 },
    /// Texts of at most `n` UTF-16 units, where `n` is 1 to 4,000.
    NVarChar { n: u32 },
    /// At most `n` bytes, where `n` is 1 to 8,000.
    VarBinary { n: u32 },
    /// Days from 0001-01-01 to 9999-12-31.
    Date,
}

impl SqlType {
    /// Whether the parameters are in their ranges: 1 to 38 digits, at most so many of them after the point; 1
    /// to 4,000 UTF-16 units; 1 to 8,000 bytes.
    #[tactic(auto, unfolding(crate::specs::Stored::is_in_range))]
    pub fn is_in_range(&self) -> bool
        ensures { result ≡ spec.is_in_range self.now }
    {
        match self {
            SqlType::Decimal { p, s } => 1 <= *p && *p <= 38 && *s <= *p,
            SqlType::NVarChar { n } => 1 <= *n && *n <= 4000,
            SqlType::VarBinary { n } => 1 <= *n && *n <= 8000,
            SqlType::Bit | SqlType::Int | SqlType::BigInt | SqlType::Date => true,
        }
    }
}
