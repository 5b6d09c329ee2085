//! Why a case has no answer.

use base_types::Memory;
use std::alloc::{AllocError, AllocFailed};

/// Why a case has no answer.
#[derive(Clone, Copy)]
pub enum Fault {
    /// The line isn't a case, and why.
    Form(&'static str),
    /// There is no more memory.
    Memory,
}

impl From<Memory> for Fault {
    fn from(_: Memory) -> Fault {
        Fault::Memory
    }
}

impl From<AllocError> for Fault {
    fn from(_: AllocError) -> Fault {
        Fault::Memory
    }
}

impl<T: Drop> From<AllocFailed<T>> for Fault {
    fn from(_: AllocFailed<T>) -> Fault {
        Fault::Memory
    }
}
