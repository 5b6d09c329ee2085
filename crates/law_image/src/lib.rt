//! The law that the image of a legal journal has a spelling.
#![tactic(auto)]

mod laws;

pub use laws::{
    encoded_definitions_are_encodable, legal_images_are_encodable, legal_images_have_nothing_gone,
};
