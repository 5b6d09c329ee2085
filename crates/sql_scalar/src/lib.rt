//! What is worked out of single values: conversion to a column's type, rounding, days, literals and
//! their printing. The types, the definitions and the order of values stand in `sql_value`.
#![tactic(auto)]

mod conversion;
mod day;
mod laws;
mod literal;
mod number;
mod printing;
mod stored;
mod text;

pub use conversion::to_column;
pub use day::day_of;
pub use laws::{
    conversion_is_stored, days_are_read_back, literals_are_read_back, order_is_total,
    order_of_kinds, rounding_is_half_away_from_zero,
};
pub use literal::read_literal;
pub use printing::{print, print_literal};
pub use stored::fits;
