//! The failure of a source or a sink.

use thiserror::Error;

/// The outside failed. It is answered only where the count of faults rose.
#[derive(Clone, Copy, Debug, PartialEq, Eq, Error)]
#[error("the outside failed")]
pub struct Failed;
