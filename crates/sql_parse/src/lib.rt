//! Reads and prints the text of a statement.
#![tactic(auto)]

mod alter;
mod column;
mod cursor;
mod expr;
mod ledger;
mod name;
mod page;
mod print_part;
mod print_stmt;
mod row;
mod select;
mod stmt;
mod stop;
mod table;
mod text;
mod word;

pub use print_stmt::print;
pub use spec_syntax::ParseErr;
pub use sql_types::{Select, Stmt};
pub use stop::{Stop, stop_of};
pub use text::{parse, parse_any, parse_in};
