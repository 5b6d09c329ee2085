//! The half of a tree in which a place stands.

ghost use Rattle.std.specs.Prelude.{◌≡◌, ◌≤◌, ◌<◌, ◌^◌, [], ◌∷◌, ◌++◌};
ghost use Rattle.base_merkle.specs.TreeHash.{split_of};
ghost use Rattle.audit_paths.specs.Path.{sides_of};

use crate::side::Side;
use audit_extract::split_of;

/// The half of a tree in which a place stands: its place there, of how many, and where the other half is.
#[derive(Clone, Copy)]
pub(crate) struct Half {
    pub place: usize,
    pub count: usize,
    pub other: Side,
}

/// The half in which a place of two leaves and more stands.
pub(crate) fn half_of(place: usize, count: usize) -> Half
    requires few { count < 2 ^ 63 }
    requires more { 2 ≤ count }
    ensures sides { sides_of place count ≡ sides_of result.place result.count ++ result.other ∷ [] }
    ensures smaller { result.count < count }
{
    let front = front_of(count);
    if place < front {
        Half {
            place,
            count: front,
            other: Side::Right,
        }
    } else {
        Half {
            place: place - front,
            count: count - front,
            other: Side::Left,
        }
    }
}

// How many leaves the front half has.
fn front_of(count: usize) -> usize
    requires few { count < 2 ^ 63 }
    requires more { 2 ≤ count }
    ensures value { result ≡ split_of count }
    ensures some { 1 ≤ result }
    ensures below { result < count }
{
    split_of(count)
}
