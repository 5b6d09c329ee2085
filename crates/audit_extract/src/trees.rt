//! A collision in two lists of leaves that have one tree hash.

ghost use Rattle.std.specs.Prelude.{◌≡◌, ◌≢◌, ◌<◌, ◌≤◌, ◌^◌, true, false, length, take, drop, IfOk};
ghost use Rattle.base_merkle.specs.TreeHash.{tree_hash, split_of};
ghost use Rattle.spec_verify.specs.Collision.{Collides};
ghost use Rattle.audit_extract.specs.Hashed.{hashed};
ghost use Rattle.audit_extract.specs.Finds.{Finds};
ghost use Rattle.audit_extract.specs.Strings.{AreAtNode, OfCollision};

use crate::found::{Collision, ImageComparison};
use base_merkle::{Frontier, Hash32};
use base_types::{Blob, Hash, Memory};
use std::alloc::Global;

/// Of two different lists of leaves that have one tree hash, two different byte strings with one hash: what is
/// hashed at one node of both trees.
/// Parts the lists as the tree does until the bytes that were hashed differ.
pub(crate) fn find_in_trees<H: Hash32>(
    alloc: Global,
    h: H,
    a: &[Blob],
    b: &[Blob],
) -> Result<Collision, Memory>
    requires few_a { length a.now < 2 ^ 63 }
    requires few_b { length b.now < 2 ^ 63 }
    requires differ { a.now ≢ b.now }
    requires same { tree_hash (H.digest h) a.now ≡ tree_hash (H.digest h) b.now }
    ensures collides { IfOk result (λ c. Collides (H.digest h) c.first c.second) }
    ensures node { IfOk result (AreAtNode (H.digest h) a.now b.now) }
{
    let mut a = a;
    let mut b = b;
    'halves: loop {
        match compared(alloc, h, a, b)? {
            ImageComparison::Collision(collision) => return Ok(collision),
            ImageComparison::Same => {
                let (a_front, a_back) = tree_halves(a);
                let (b_front, b_back) = tree_halves(b);
                if are_same(a_front, b_front) {
                    a = a_back;
                    b = b_back;
                } else {
                    a = a_front;
                    b = b_front;
                }
            }
        }
    }
}

// Whether the hashes of two lists of leaves are of the same bytes.
fn compared<H: Hash32>(
    alloc: Global,
    h: H,
    a: &[Blob],
    b: &[Blob],
) -> Result<ImageComparison, Memory>
    requires few_a { length a.now < 2 ^ 63 }
    requires few_b { length b.now < 2 ^ 63 }
    requires same { tree_hash (H.digest h) a.now ≡ tree_hash (H.digest h) b.now }
    ensures finds { IfOk result
        (Finds (H.digest h) (hashed (H.digest h) a.now ≡ hashed (H.digest h) b.now)) }
    ensures strings { IfOk result (OfCollision
        (λ c. (c.first ≡ hashed (H.digest h) a.now) × (c.second ≡ hashed (H.digest h) b.now))) }
{
    let first = hashed_bytes(alloc, h, a)?;
    let second = hashed_bytes(alloc, h, b)?;
    if is_equal(first.bytes(), second.bytes()) {
        return Ok(ImageComparison::Same);
    }
    Ok(ImageComparison::Collision(Collision { first, second }))
}

// The bytes whose hash is the tree hash.
fn hashed_bytes<H: Hash32>(alloc: Global, h: H, leaves: &[Blob]) -> Result<Blob, Memory>
    requires { length leaves.now < 2 ^ 63 }
    ensures { IfOk result (λ bytes. bytes ≡ hashed (H.digest h) leaves.now) }
{
    let mut bytes = Vec::new(alloc);
    match leaves {
        [] => {}
        [leaf] => {
            bytes.push(0)?;
            bytes.extend_from_slice(leaf.bytes())?;
        }
        _ => {
            let (front, back) = tree_halves(leaves);
            bytes.push(1)?;
            bytes.extend_from_slice(&tree_root(h, front))?;
            bytes.extend_from_slice(&tree_root(h, back))?;
        }
    }
    Ok(Blob::from_vec(bytes))
}

/// The tree hash of some leaves (RFC 6962, section 2.1).
pub fn tree_root<H: Hash32>(h: H, leaves: &[Blob]) -> Hash
    requires { length leaves.now < 2 ^ 63 }
    ensures { result ≡ tree_hash (H.digest h) leaves.now }
{
    let mut tree = Frontier::new(h);
    for leaf in leaves {
        tree.push_leaf(leaf.bytes());
    }
    tree.root()
}

/// The two halves of two leaves and more, as the tree parts them.
pub fn tree_halves(leaves: &[Blob]) -> (&[Blob], &[Blob])
    requires few { length leaves.now < 2 ^ 63 }
    requires more { 2 ≤ length leaves.now }
    ensures front { result.0.now ≡ take (split_of (length leaves.now)) leaves.now }
    ensures back { result.1.now ≡ drop (split_of (length leaves.now)) leaves.now }
{
    leaves.split_at(split_of(leaves.len()))
}

/// The largest power of two below a number: so many leaves stand in the first half of a tree.
pub fn split_of(n: usize) -> usize
    requires few { n < 2 ^ 63 }
    requires more { 2 ≤ n }
    ensures { result ≡ split_of n }
{
    let mut k = 1;
    while 2 * k < n {
        k *= 2;
    }
    k
}

/// Whether two lists of byte strings are the same.
pub(crate) fn are_same(a: &[Blob], b: &[Blob]) -> bool
    ensures same { result ≡ true → a.now ≡ b.now }
    ensures differ { result ≡ false → a.now ≢ b.now }
{
    if a.len() != b.len() {
        return false;
    }
    for (i, x) in a.iter().enumerate() {
        if !is_equal(x.bytes(), b[i].bytes()) {
            return false;
        }
    }
    true
}

/// Whether two byte strings are the same.
pub(crate) fn is_equal(a: &[u8], b: &[u8]) -> bool
    ensures same { result ≡ true → a.now ≡ b.now }
    ensures differ { result ≡ false → a.now ≢ b.now }
{
    a == b
}
