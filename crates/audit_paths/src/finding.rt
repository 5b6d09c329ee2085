//! A collision in the ways of two leaves to one root.

ghost use Rattle.std.specs.Prelude.{◌≡◌, ◌≢◌, ◌<◌, ◌^◌, true, false, Some, IsSome, IfOk};
ghost use Rattle.std.specs.Option.{option_map};
ghost use Rattle.audit_extract.specs.Collisions.{CollideBetween};
ghost use Rattle.audit_paths.specs.Hashed.{IsHashedUnder};
ghost use Rattle.audit_paths.specs.Path.{AreHashes, HaveOneRoot, node_of, root_under};

use crate::half::{Half, half_of};
use crate::nodes::{leaf_bytes, node_bytes};
use crate::path::{parted, root_under};
use audit_extract::Collision;
use base_merkle::Hash32;
use base_types::{Blob, Hash, Memory};
use std::alloc::Global;

/// Of two different leaves that their paths lead to one root from one place, two different byte strings with
/// one hash, of which one is hashed on the first leaf's way and the other on the second's. Each leaf stands before its
/// path. Goes from the root down until the bytes that were hashed differ.
pub fn find_in_paths<H: Hash32>(
    alloc: Global,
    h: H,
    place: usize,
    count: usize,
    a: (&[u8], &[Hash]),
    b: (&[u8], &[Hash]),
) -> Result<Collision, Memory>
    requires few { count < 2 ^ 63 }
    requires a_path { AreHashes a.1.now }
    requires b_path { AreHashes b.1.now }
    requires differ { a.0.now ≢ b.0.now }
    requires root { HaveOneRoot (H.digest h) place count a.0.now a.1.now b.0.now b.1.now }
    ensures { IfOk result (CollideBetween (H.digest h) (IsHashedUnder (H.digest h) a.entry.1.now place count a.entry.0.now)
        (IsHashedUnder (H.digest h) b.entry.1.now place count b.entry.0.now)) }
{
    let (a_leaf, mut a_path) = a;
    let (b_leaf, mut b_path) = b;
    let mut place = place;
    let mut count = count;
    'halves: while count >= 2 {
        let half = half_of(place, count);
        let (a_below, a_other) = parted(a_path);
        let (b_below, b_other) = parted(b_path);
        let first = bytes_above(alloc, h, a_leaf, a_below, &half, a_other)?;
        let second = bytes_above(alloc, h, b_leaf, b_below, &half, b_other)?;
        if !is_equal(&first, &second) {
            return Ok(Collision { first, second });
        }
        a_path = a_below;
        b_path = b_below;
        place = half.place;
        count = half.count;
    }
    let first = leaf_bytes(alloc, a_leaf)?;
    let second = leaf_bytes(alloc, b_leaf)?;
    Ok(Collision { first, second })
}

// The bytes of the node above the half in which a leaf stands.
fn bytes_above<H: Hash32>(
    alloc: Global,
    h: H,
    leaf: &[u8],
    below: &[Hash],
    half: &Half,
    other: &Hash,
) -> Result<Blob, Memory>
    requires few { half.now.count < 2 ^ 63 }
    requires root { IsSome (root_under (H.digest h) below.now half.now.place half.now.count leaf.now) }
    ensures { IfOk result (λ bytes. Some bytes ≡ option_map (node_of (half.now.other, other.now))
        (root_under (H.digest h) below.now half.now.place half.now.count leaf.now)) }
{
    let hash = root_under(h, below, half.place, half.count, leaf).unwrap();
    node_bytes(alloc, &hash, half.other, other)
}

fn is_equal(a: &Blob, b: &Blob) -> bool
    ensures same { result ≡ true → a.now ≡ b.now }
    ensures differ { result ≡ false → a.now ≢ b.now }
{
    a.bytes() == b.bytes()
}
