//! Places at which a test can hold a thread.

/// What a thread passes at its steps. It changes nothing that a contract names, and returns.
/// Threads share it by reference.
pub trait Gate: Sync {
    /// Called by a thread that holds no cell, after a statement of a session; both are counted from 0.
    fn pass(&self, session: u32, statement: u32);

    /// Called by a thread while it holds this cell.
    fn inside(&self, cell: u32);
}

/// A gate that lets everybody pass at once.
#[derive(Clone, Copy, Debug, PartialEq, Eq)]
pub struct OpenGate;

impl Gate for OpenGate {
    fn pass(&self, _session: u32, _statement: u32) {}

    fn inside(&self, _cell: u32) {}
}
