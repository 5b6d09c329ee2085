//! The locks of one cell: who holds what, and which wants are refused because of it.
#![tactic(auto)]

mod conflict;
mod hold;
mod index;
mod item;
mod laws;
mod list;
mod lock_err;
mod mode;

pub use laws::{back_undoes_an_ask, least_holder_is_named};
pub use list::LockList;
pub use lock_err::LockErr;
pub use mode::conflicts;
pub use sql_types::{Item, LockRequest, Mode};
