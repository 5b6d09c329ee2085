//! Values that columns store are written as literals.
#![tactic(auto)]

mod laws;

pub use laws::stored_values_are_written_as_literals;
