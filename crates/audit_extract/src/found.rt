//! What a search for a difference answers.

use base_types::Blob;

/// Two different byte strings with one hash.
#[derive(Debug, Drop)]
pub struct Collision {
    pub first: Blob,
    pub second: Blob,
}

/// What two images that meet one digest are to each other.
#[derive(Debug, Drop)]
pub enum ImageComparison {
    /// All that the digest covers is the same in both.
    Same,
    /// It isn't, and the hash was broken.
    Collision(Collision),
}
