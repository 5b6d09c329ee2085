//! The cells that seats visit, and the visits of any of them, or of all for an image.
#![tactic(auto)]

mod all_cells;
mod cell;
mod cell_ledger;
mod image_visit;
mod served;
mod visits;

pub use all_cells::image_bytes_of;
pub use cell::Cell;
pub use image_visit::visit_all;
pub use server_visit_catalog::CatalogCell;
pub use server_visit_ledger::LedgerCell;
pub use server_visit_table::TableCell;
pub use visits::visit;
