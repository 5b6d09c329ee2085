//! What a seat needs to go on.

/// What a seat visits next.
#[derive(Clone, Copy, Debug, PartialEq, Eq)]
pub enum NextVisit {
    /// The cell with this number.
    Cell(usize),
    /// All cells at once.
    All,
    /// Nothing: it is in no statement, or its answer is there.
    Done,
}
