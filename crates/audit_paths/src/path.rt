//! The way from a leaf up to the root.

ghost use Rattle.std.specs.Prelude.{◌≡◌, ◌≢◌, ◌≤◌, ◌<◌, ◌^◌, [], ◌∷◌, ◌++◌, length, take, drop, IfOk};
ghost use Rattle.std.specs.Option.{MatchOption, option_map};
ghost use Rattle.base_merkle.specs.TreeHash.{split_of};
ghost use Rattle.audit_paths.specs.Path.{audit_path, audit_steps, node_of, root_over, root_under};

use crate::half::half_of;
use crate::nodes::{leaf_hash, node_hash};
use crate::side::Side;
use audit_extract::{tree_halves, tree_root};
use base_merkle::Hash32;
use base_types::{Blob, Hash, Items, Memory};
use std::alloc::Global;

/// The audit path of a place, counted from 0, in some leaves (RFC 6962, section 2.1.1): from the leaf up, the
/// tree hash of the other half at each split.
pub fn audit_path<H: Hash32>(
    alloc: Global,
    h: H,
    place: usize,
    leaves: &[Blob],
) -> Result<Items<Hash>, Memory>
    requires { length leaves.now < 2 ^ 63 }
    ensures { IfOk result (λ path. path ≡ audit_path (H.digest h) place leaves.now) }
{
    if leaves.len() < 2 {
        return Ok(Items::new(alloc));
    }
    let (front, back) = halves(leaves);
    if place < front.len() {
        let mut path = audit_path(alloc, h, place, front)?;
        path.push(tree_root(h, back))?;
        Ok(path)
    } else {
        let mut path = audit_path(alloc, h, place - front.len(), back)?;
        path.push(tree_root(h, front))?;
        Ok(path)
    }
}

/// The audit path of a place in some leaves, and on which side each of its hashes stands.
pub fn audit_steps<H: Hash32>(
    alloc: Global,
    h: H,
    place: usize,
    leaves: &[Blob],
) -> Result<Items<(Side, Hash)>, Memory>
    requires { length leaves.now < 2 ^ 63 }
    ensures { IfOk result (λ steps. steps ≡ audit_steps (H.digest h) place leaves.now) }
{
    if leaves.len() < 2 {
        return Ok(Items::new(alloc));
    }
    let (front, back) = halves(leaves);
    if place < front.len() {
        let mut steps = audit_steps(alloc, h, place, front)?;
        steps.push((Side::Right, tree_root(h, back)))?;
        Ok(steps)
    } else {
        let mut steps = audit_steps(alloc, h, place - front.len(), back)?;
        steps.push((Side::Left, tree_root(h, front)))?;
        Ok(steps)
    }
}

// The two halves of two leaves and more, each with fewer leaves.
fn halves(leaves: &[Blob]) -> (&[Blob], &[Blob])
    requires few { length leaves.now < 2 ^ 63 }
    requires more { 2 ≤ length leaves.now }
    ensures front { result.0.now ≡ take (split_of (length leaves.now)) leaves.now }
    ensures back { result.1.now ≡ drop (split_of (length leaves.now)) leaves.now }
    ensures front_shorter { length result.0.now < length leaves.now }
    ensures back_shorter { length result.1.now < length leaves.now }
{
    tree_halves(leaves)
}

/// The root that a path gives for a leaf at a place of so many, or None where the path has another length than
/// such a tree gives there. It takes no memory.
///
/// RFC 9162, section 2.1.3.2, checks the same from the leaf up, by the bits of the place and of the last place;
/// here the tree is parted from the root down, as both documents define the path. Both take the same hashes in
/// the same order, and refuse a path that is too short or too long.
pub fn root_under<H: Hash32>(
    h: H,
    path: &[Hash],
    place: usize,
    count: usize,
    leaf: &[u8],
) -> Option<Hash>
    requires { count < 2 ^ 63 }
    ensures { result ≡ root_under (H.digest h) path.now place count leaf.now }
{
    match last_parted(path) {
        None => {
            if count < 2 {
                Some(leaf_hash(h, leaf))
            } else {
                None
            }
        }
        Some((below, other)) => {
            if count < 2 {
                return None;
            }
            let half = half_of(place, count);
            let hash = root_under(h, below, half.place, half.count, leaf);
            above(h, hash, half.other, other)
        }
    }
}

// All hashes but the last, and the last, if there is one.
fn last_parted(path: &[Hash]) -> Option<(&[Hash], &Hash)>
    ensures { MatchOption result (path.now ≡ []) (λ p. path.now ≡ p.0.now ++ p.1.now ∷ []) }
{
    if path.is_empty() {
        return None;
    }
    Some(parted(path))
}

/// All hashes but the last, and the last.
pub(crate) fn parted(path: &[Hash]) -> (&[Hash], &Hash)
    requires { path.now ≢ [] }
    ensures { path.now ≡ result.0.now ++ result.1.now ∷ [] }
{
    let (below, end) = path.split_at(path.len() - 1);
    (below, &end[0])
}

// The hash of the node that has this half, if there is one, and on this side another.
fn above<H: Hash32>(h: H, half: Option<Hash>, side: Side, other: &Hash) -> Option<Hash>
    ensures { result ≡ option_map (λ r. H.digest h (node_of (side, other.now) r)) half }
{
    match half {
        Some(hash) => Some(node_hash(h, &hash, side, other)),
        None => None,
    }
}

/// The root that some steps give for a leaf.
pub fn root_over<H: Hash32>(h: H, leaf: &[u8], steps: &[(Side, Hash)]) -> Hash
    ensures { result ≡ root_over (H.digest h) leaf.now steps.now }
{
    let mut hash = leaf_hash(h, leaf);
    for step in steps {
        hash = node_hash(h, &hash, step.0, &step.1);
    }
    hash
}
