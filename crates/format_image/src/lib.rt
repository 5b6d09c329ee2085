//! Images of databases: what the image of a journal is, and its bytes.
#![tactic(auto)]

mod laws;
mod names;
mod read_definitions;
mod read_ledger;
mod read_rows;
mod reading;
mod version;
mod write_definitions;
mod write_rows;
mod writing;

pub use laws::{equal_bytes_are_of_equal_images, the_first_image_is_empty};
pub use reading::read_image;
pub use sql_types::{Image, IndexRow, TableRows};
pub use version::ImageVersion;
pub use writing::{write_image, write_image_1};
