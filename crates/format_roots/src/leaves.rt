//! The roots over leaves that are all there.

ghost use Rattle.std.specs.Prelude.{◌≡◌, ◌∷◌, [], ℕ, List, IfOk, map};
ghost use Rattle.base_merkle.specs.TreeHash.{tree_hash};

use base_merkle::{Hash32, Message, node_hash, root_of_hashes};
use base_types::Hash;
use std::alloc::{AllocError, Global};

/// The hashes of four leaves, computed together.
pub fn four_leaf_hashes<H: Hash32>(h: H, a: &[u8], b: &[u8], c: &[u8], d: &[u8]) -> [Hash; 4]
    ensures { result ≡ H.digest h (0 ∷ a.now) ∷ H.digest h (0 ∷ b.now)
        ∷ H.digest h (0 ∷ c.now) ∷ H.digest h (0 ∷ d.now) ∷ [] }
{
    h.hash_four(&[
        Message {
            head: &[0],
            rest: a,
        },
        Message {
            head: &[0],
            rest: b,
        },
        Message {
            head: &[0],
            rest: c,
        },
        Message {
            head: &[0],
            rest: d,
        },
    ])
}

/// The Merkle tree hash of leaves of which these are the hashes (RFC 6962, section 2.1). Of one or two it takes
/// no memory.
pub fn root_over_hashes<H: Hash32>(alloc: Global, h: H, hashes: &[Hash]) -> Result<Hash, AllocError>
    ensures { IfOk result (λ root. (leaves : List (List ℕ))
        → hashes.now ≡ map (λ leaf. H.digest h (0 ∷ leaf)) leaves
        → root ≡ tree_hash (H.digest h) leaves) }
{
    match hashes {
        [one] => Ok(*one),
        [left, right] => Ok(node_hash(h, left, right)),
        _ => root_of_many(alloc, h, hashes),
    }
}

fn root_of_many<H: Hash32>(alloc: Global, h: H, hashes: &[Hash]) -> Result<Hash, AllocError>
    ensures { IfOk result (λ root. (leaves : List (List ℕ))
        → hashes.now ≡ map (λ leaf. H.digest h (0 ∷ leaf)) leaves
        → root ≡ tree_hash (H.digest h) leaves) }
{
    let mut nodes = Vec::with_capacity(alloc, hashes.len())?;
    nodes.extend_from_slice(hashes)?;
    root_of_hashes(alloc, h, nodes)
}
