//! The meaning of statements: definitions, and the laws of expressions.
#![tactic(auto)]

mod expressions;

pub use expressions::{
    classes_foretell_outcomes, comparison_with_null_is_unknown, missing_columns_come_first,
    truths_are_kleenes,
};
