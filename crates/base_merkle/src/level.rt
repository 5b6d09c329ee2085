//! Trees whose leaves are all there, level by level.

ghost use Rattle.std.specs.Prelude.{◌≡◌, ◌++◌, ◌∷◌, [], ℕ, List, IfOk, length, map, slice_index_or};
ghost use Rattle.base_merkle.specs.Levels.{level_above};
ghost use Rattle.base_merkle.specs.TreeHash.{tree_hash};

use crate::Hash32;
use crate::node::{head_of, node_hash};
use base_sha256::{Hash, Message};
use std::alloc::{AllocError, Global};

// The four nodes above eight, of which the heads have the left ones.
fn join_four<H: Hash32>(hasher: H, heads: &[[u8; 33]; 4], nodes: &[Hash]) -> [Hash; 4]
    requires { length nodes.now ≡ 8 }
    ensures { result ≡ H.digest hasher (slice_index_or heads.now 0 [] ++ slice_index_or nodes.now 1 [])
        ∷ H.digest hasher (slice_index_or heads.now 1 [] ++ slice_index_or nodes.now 3 [])
        ∷ H.digest hasher (slice_index_or heads.now 2 [] ++ slice_index_or nodes.now 5 [])
        ∷ H.digest hasher (slice_index_or heads.now 3 [] ++ slice_index_or nodes.now 7 []) ∷ [] }
{
    hasher.hash_four(&[
        Message {
            head: &heads[0],
            rest: &nodes[1],
        },
        Message {
            head: &heads[1],
            rest: &nodes[3],
        },
        Message {
            head: &heads[2],
            rest: &nodes[5],
        },
        Message {
            head: &heads[3],
            rest: &nodes[7],
        },
    ])
}

// The four nodes above eight.
fn above_eight<H: Hash32>(hasher: H, nodes: &[Hash]) -> [Hash; 4]
    requires { length nodes.now ≡ 8 }
    ensures { result ≡ level_above (H.digest hasher) nodes.now }
{
    let a = head_of(&nodes[0]);
    let b = head_of(&nodes[2]);
    let c = head_of(&nodes[4]);
    let d = head_of(&nodes[6]);
    join_four(hasher, &[a, b, c, d], nodes)
}

/// The nodes above those of one level: each two are joined, and a last one alone stays as it is.
pub fn level_above<H: Hash32>(
    alloc: Global,
    hasher: H,
    nodes: &[Hash],
) -> Result<Vec<Hash>, AllocError>
    ensures { IfOk result (λ above. above.items ≡ level_above (H.digest hasher) nodes.now) }
{
    let mut above = Vec::with_capacity(alloc, nodes.len().div_ceil(2))?;
    let mut done = 0;
    'eights: while nodes.len() - done >= 8 {
        above.extend_from_slice(&above_eight(hasher, &nodes[done..done + 8]))?;
        done += 8;
    }
    'pairs: while nodes.len() - done >= 2 {
        above.push(node_hash(hasher, &nodes[done], &nodes[done + 1]))?;
        done += 2;
    }
    if done < nodes.len() {
        above.push(nodes[done])?;
    }
    Ok(above)
}

/// The Merkle tree hash of leaves of which these are the hashes (RFC 6962, section 2.1).
pub fn root_of_hashes<H: Hash32>(
    alloc: Global,
    hasher: H,
    hashes: Vec<Hash>,
) -> Result<Hash, AllocError>
    ensures { IfOk result (λ root. (leaves : List (List ℕ))
        → hashes.items ≡ map (λ leaf. H.digest hasher (0 ∷ leaf)) leaves
        → root ≡ tree_hash (H.digest hasher) leaves) }
{
    let mut nodes = hashes;
    'levels: while nodes.len() > 1 {
        nodes = level_above(alloc, hasher, &nodes)?;
    }
    match nodes.as_slice() {
        [] => Ok(hasher.hash(&[], &[])),
        [root, ..] => Ok(*root),
    }
}
