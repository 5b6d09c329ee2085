//! The rules of expressions whose operators group from the left.

/// The rules whose operators group from the left.
#[derive(Clone, Copy, Debug)]
pub enum Level {
    Or,
    And,
    Sum,
    Product,
}
