//! Whether the rows of the system tables keep the rules of changes.
#![tactic(auto)]

mod catalog;
mod changes;
mod columns;
mod fault;
mod first_ranks;
mod ids;
mod in_force;
mod indexes;
mod names;
mod rows;
mod statements;
mod table_names;
mod table_times;
mod tables;
mod times;

pub use catalog::Catalog;
pub use fault::catalog_fault;
pub use rows::PlacedVersion;
pub use table_times::{TableTimes, VersionInTime};
pub use times::Times;
