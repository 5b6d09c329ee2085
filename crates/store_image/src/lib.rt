//! The bytes of the image of what lies in cells, without what the journal there hasn't committed.
#![tactic(auto)]

mod entries;
mod forms;
mod ids;
mod image;
mod shown;
mod tables;
mod versions;

pub use ids::CommittedTxs;
pub use image::image_bytes_of_cells;
pub use shown::ShownCells;
pub use versions::committed_versions;
