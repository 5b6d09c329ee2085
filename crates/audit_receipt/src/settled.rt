//! What two accepted receipts of one place come to.

use audit_extract::Collision;

/// What two accepted receipts of one place come to.
#[derive(Debug, Drop)]
pub enum Settled {
    /// They have one entry.
    Same,
    /// They haven't, and the hash was broken.
    Collision(Collision),
}
