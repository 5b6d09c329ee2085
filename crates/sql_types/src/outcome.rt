//! What an expression gives.

use sql_value::Value;

/// What an expression gives in a row: a value, or a truth.
#[derive(Debug, Drop)]
pub enum Outcome {
    Value(Value),
    /// True, false, or None where it is unknown.
    Truth(Option<bool>),
}
