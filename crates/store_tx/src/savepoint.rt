//! Savepoints of a transaction.

ghost use Rattle.std.specs.Prelude.{◌≡◌, ◌≤◌, ℕ, List, length, take, bytes_eq};
ghost use Rattle.spec_protocol.specs.Seats.{OpenSavepoint};
ghost use Rattle.spec_protocol.specs.Answering.{savepoints_from};
ghost use Rattle.store_tx.specs.Represents.{RepresentSavepoints};

use base_merkle::FrontierMark;
use base_types::Name;

/// What a transaction was when it was saved: a mark of each tree that was open, and its counter.
#[derive(Drop)]
pub struct Savepoint {
    pub name: Name,
    pub marks: Vec<FrontierMark>,
    pub seq: u64,
}

fn is_named(savepoint: &Savepoint, name: &Name) -> bool
    ensures { result ≡ bytes_eq savepoint.now.name name.now }
{
    savepoint.name == *name
}

/// How many savepoints there are up to the most recent one of this name: 0 where none has it.
pub(crate) fn kept_by(savepoints: &[Savepoint], name: &Name) -> usize
    ensures within { result ≤ length savepoints.now }
    ensures kept { (h : List ℕ → List ℕ) (tables : List ℕ) (open_savepoints : List OpenSavepoint)
        → RepresentSavepoints h tables savepoints.now open_savepoints
        → RepresentSavepoints h tables (take result savepoints.now) (savepoints_from name.now open_savepoints) }
{
    let mut kept = savepoints.len();
    while kept > 0 {
        if is_named(&savepoints[kept - 1], name) {
            return kept;
        }
        kept -= 1;
    }
    0
}
