//! The rows of a table and of its indexes, as an image has them.
#![tactic(auto)]

mod indexes;
mod parts;
mod room;
mod stored;
mod tables;

pub use law_image::legal_images_are_encodable;
pub use parts::split;
pub use room::tables_have_room;
pub use stored::copy_stored;
