//! The class of an expression over the columns of a part, and its value or truth in a row of them.
#![tactic(auto)]

mod arithmetic;
mod checking;
mod classes;
mod conditions;
mod days;
mod evaluation;
mod names;
mod operators;
mod seen;
mod seen_row;
mod truth;

pub use arithmetic::{Number, sized, sum};
pub use checking::{check, class, class_of_literal, class_of_type};
pub use conditions::holds;
pub use days::written_day;
pub use evaluation::eval;
pub use names::names_columns;
pub use seen_row::RowRef;
pub use sql_types::Outcome;
