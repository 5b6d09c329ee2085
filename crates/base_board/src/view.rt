//! What the rule of a board knows of one seat.
use std::collections::LinkedList;

/// What the world knows of the seat, how many parts it has, and the cells that are out with it, as they
/// were when they were taken, the last one first. No value of this type is made.
pub struct SeatView<C, S> {
    pub state: S,
    pub parts: u64,
    pub out: LinkedList<(u64, C)>,
}
