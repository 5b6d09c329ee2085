//! Values of SQL, their types and columns, the tree of an expression, and why a statement is refused. What is
//! worked out of values is defined here too; the functions stand in `sql_scalar`, but for the order of values.
#![tactic(auto)]

mod column;
mod day;
mod expr;
mod laws;
mod number;
mod order;
mod refusal;
mod sql_type;
mod type_codes;
mod value;

pub use base_types::{Blob, Hash, Items, Memory, Name, TableId, Text, TxId};
pub use column::{ColumnDef, TableKind};
pub use day::CivilDate;
pub use expr::{Class, Expr, Op};
pub use laws::expressions_are_trees;
pub use number::{compare_numbers, raised};
pub use order::compare;
pub use refusal::{LitErr, Refusal, ValueErr};
pub use sql_type::SqlType;
pub use type_codes::type_parts;
pub use value::Value;
