//! Why nothing is found of a line.

use base_types::Memory;
use std::alloc::AllocError;

/// Why nothing is found of a line.
#[derive(Clone, Copy, Debug)]
pub enum Fault {
    /// The line or one of its files hasn't its form, and which.
    Form(&'static str),
    /// There is no more memory.
    Memory,
}

impl From<Memory> for Fault {
    fn from(_: Memory) -> Fault {
        Fault::Memory
    }
}

impl From<AllocError> for Fault {
    fn from(_: AllocError) -> Fault {
        Fault::Memory
    }
}
