//! Nodes of a tree: the hashes of a leaf and of two nodes, and complete trees.

ghost use Rattle.std.specs.Prelude.{◌≡◌, ◌++◌, ◌∷◌};

use crate::Hash32;
use base_sha256::Hash;

/// The root of a complete tree, and how many leaves it has, a power of two.
#[derive(Clone, Copy, Debug, Default)]
pub struct Node {
    pub size: u64,
    pub hash: Hash,
}

/// The hash of a leaf: a zero byte stands before it, so that no leaf reads as a node.
pub fn leaf_hash<H: Hash32>(hasher: H, leaf: &[u8]) -> Hash
    ensures { result ≡ H.digest hasher (0 ∷ leaf.now) }
{
    hasher.hash(&[0], leaf)
}

// What stands before the right one of two nodes that are hashed: a one byte and the left one.
pub(crate) fn head_of(left: &Hash) -> [u8; 33]
    ensures { result ≡ 1 ∷ left.now }
{
    let mut head = [1u8; 33];
    head[1..].copy_from_slice(left);
    head
}

/// The hash of two nodes: a one byte stands before them.
pub fn node_hash<H: Hash32>(hasher: H, left: &Hash, right: &Hash) -> Hash
    ensures { result ≡ H.digest hasher (1 ∷ left.now ++ right.now) }
{
    hasher.hash(&head_of(left), right)
}
