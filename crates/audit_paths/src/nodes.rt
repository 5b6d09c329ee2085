//! The hashes of a leaf and of a node (RFC 6962, section 2.1), and the bytes that are hashed.

ghost use Rattle.std.specs.Prelude.{◌≡◌, ◌∷◌, ◌++◌, IfOk};
ghost use Rattle.audit_paths.specs.Path.{node_of};

use crate::side::Side;
use base_merkle::Hash32;
use base_types::{Blob, Hash, Memory};
use std::alloc::Global;

/// The hash of a leaf.
pub(crate) fn leaf_hash<H: Hash32>(h: H, leaf: &[u8]) -> Hash
    ensures { result ≡ H.digest h (0 ∷ leaf.now) }
{
    h.hash(&[0], leaf)
}

/// The hash of the node that has one half and on this side the other.
pub(crate) fn node_hash<H: Hash32>(h: H, half: &Hash, side: Side, other: &Hash) -> Hash
    ensures { result ≡ H.digest h (node_of (side, other.now) half.now) }
{
    match side {
        Side::Right => joined_hash(h, half, other),
        Side::Left => joined_hash(h, other, half),
    }
}

fn joined_hash<H: Hash32>(h: H, left: &Hash, right: &Hash) -> Hash
    ensures { result ≡ H.digest h (1 ∷ left.now ++ right.now) }
{
    let mut head = [1u8; 33];
    head[1..].copy_from_slice(left);
    h.hash(&head, right)
}

/// The bytes whose hash is that of a leaf.
pub(crate) fn leaf_bytes(alloc: Global, leaf: &[u8]) -> Result<Blob, Memory>
    ensures { IfOk result (λ bytes. bytes ≡ 0 ∷ leaf.now) }
{
    let mut bytes = Vec::new(alloc);
    bytes.push(0)?;
    bytes.extend_from_slice(leaf)?;
    Ok(Blob::from_vec(bytes))
}

/// The bytes whose hash is that of the node that has one half and on this side the other.
pub(crate) fn node_bytes(
    alloc: Global,
    half: &Hash,
    side: Side,
    other: &Hash,
) -> Result<Blob, Memory>
    ensures { IfOk result (λ bytes. bytes ≡ node_of (side, other.now) half.now) }
{
    match side {
        Side::Right => joined_bytes(alloc, half, other),
        Side::Left => joined_bytes(alloc, other, half),
    }
}

fn joined_bytes(alloc: Global, left: &Hash, right: &Hash) -> Result<Blob, Memory>
    ensures { IfOk result (λ bytes. bytes ≡ 1 ∷ left.now ++ right.now) }
{
    let mut bytes = Vec::new(alloc);
    bytes.push(1)?;
    bytes.extend_from_slice(left)?;
    bytes.extend_from_slice(right)?;
    Ok(Blob::from_vec(bytes))
}
