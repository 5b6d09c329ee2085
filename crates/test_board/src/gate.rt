//! A gate, by which a test holds threads at chosen places.
use crate::world::CounterId;

/// What threads call at two places. It changes nothing that a contract names, and a real run has an
/// `OpenGate`.
pub trait Gate {
    /// Called while the counter is out with the caller's seat.
    fn inside(&self, counter: CounterId);

    /// Called after the session counted: its number, and how often it had counted before.
    fn pass(&self, session: usize, turn: u32);
}

/// A gate that holds nobody.
#[derive(Clone, Copy, Drop)]
pub struct OpenGate;

impl Gate for OpenGate {
    fn inside(&self, _counter: CounterId) {}

    fn pass(&self, _session: usize, _turn: u32) {}
}
