//! Visits of the catalog's cell, in which tables are looked up, created, altered and dropped, and indexes are
//! created.
#![tactic(auto)]

mod catalog_alter;
mod catalog_create;
mod catalog_look;
mod catalog_release;
mod got;
mod visits;

pub use store_catalog::CatalogCell;
pub use visits::visit_catalog;
