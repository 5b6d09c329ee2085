//! How a call ended, and what is to be noted of it.

use crate::Status;
use audit_answers::Coverage;

/// How a call ended, and what is to be noted of it beside its output.
#[derive(Clone, Copy, Debug)]
pub struct Ended {
    pub status: Status,
    /// What the digests cover of the image that was judged, where the output doesn't say it.
    pub covers: Option<Coverage>,
}
