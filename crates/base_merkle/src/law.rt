//! The tree hash in RFC 6962's own equations, and the root of a tree of one leaf.

ghost use Rattle.std.specs.Prelude.{◌≡◌, ◌≤◌, ◌<◌, ◌*◌, ◌^◌, ◌++◌, ◌∷◌, [], ℕ, List, length, take, drop};
ghost use Rattle.base_merkle.specs.TreeHash.{tree_hash};

use crate::Hash32;
use crate::node::leaf_hash;
use base_sha256::Hash;

/// RFC 6962, section 2.1, for any hash `h`: of no leaves it is the hash of no bytes; of one leaf that of a
/// zero byte and the leaf; of more that of a one byte and the tree hashes of the first `k` leaves and of the
/// rest, where `k` is the power of two that is below their number and at least half of it.
pub fn tree_hash_law()
    ensures none { (h : List ℕ → List ℕ) → tree_hash h [] ≡ h [] }
    ensures one { (h : List ℕ → List ℕ) (leaf : List ℕ) → tree_hash h (leaf ∷ []) ≡ h (0 ∷ leaf) }
    ensures more { (h : List ℕ → List ℕ) (leaves : List (List ℕ)) (height : ℕ)
        → 2 ^ height < length leaves → length leaves ≤ 2 * 2 ^ height
        → tree_hash h leaves
        ≡ h (1 ∷ tree_hash h (take (2 ^ height) leaves) ++ tree_hash h (drop (2 ^ height) leaves)) }
{}

/// The root of a tree of one leaf, at the cost of that leaf's hash.
pub fn root_of_leaf<H: Hash32>(hasher: H, leaf: &[u8]) -> Hash
    ensures { result ≡ tree_hash (H.digest hasher) (leaf.now ∷ []) }
{
    leaf_hash(hasher, leaf)
}
