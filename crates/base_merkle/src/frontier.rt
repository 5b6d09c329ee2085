//! A tree over leaves that come one by one, kept as its complete trees, the largest first.

ghost use Rattle.std.specs.Prelude.{◌≡◌, ◌≤◌, ◌<◌, ◌+◌, ◌*◌, ◌^◌, ◌++◌, ◌∷◌, [], ℕ, List, length};
ghost use Rattle.base_merkle.specs.TreeHash.{tree_hash};
ghost use Rattle.base_merkle.specs.PutOn.{PutOn};
ghost use Rattle.base_merkle.specs.Stack.{stack_root};

use crate::Hash32;
use crate::node::{Node, leaf_hash, node_hash};
use arrayvec::ArrayVec;
use base_sha256::Hash;

/// A tree over the leaves that were pushed. It has room for 64 nodes, takes no memory, and does not keep the
/// leaves.
#[derive(Drop)]
pub struct Frontier<H: Hash32> {
    nodes: ArrayVec<Node, 64>,
    count: u64,
    hasher: H,
}

/// What a tree was when it was saved.
#[derive(Drop)]
pub struct FrontierMark {
    nodes: ArrayVec<Node, 64>,
    count: u64,
}

// The root over the complete trees, joined from the last one on.
fn root_of<H: Hash32>(hasher: H, nodes: &[Node]) -> Hash
    ensures { result ≡ stack_root (H.digest hasher) nodes.now }
{
    match nodes {
        [] => hasher.hash(&[], &[]),
        [.., last] => {
            let mut hash = last.hash;
            let mut at = nodes.len() - 1;
            while at > 0 {
                at -= 1;
                hash = node_hash(hasher, &nodes[at].hash, &hash);
            }
            hash
        }
    }
}

// Puts a node on, joined with each last node that is as large.
fn put_on<H: Hash32>(hasher: H, nodes: &mut ArrayVec<Node, 64>, node: Node)
    requires { length nodes.old.items < 63 }
    ensures len { length nodes.new.items ≤ length nodes.old.items + 1 }
    ensures stack { PutOn (H.digest hasher) nodes.old.items node nodes.new.items }
{
    let mut node = node;
    loop {
        match nodes.pop() {
            None => {
                nodes.push(node);
                return;
            }
            Some(last) => {
                if last.size != node.size {
                    nodes.push(last);
                    nodes.push(node);
                    return;
                }
                let size = node.size.saturating_mul(2);
                let hash = node_hash(hasher, &last.hash, &node.hash);
                node = Node { size, hash };
            }
        }
    }
}

// Makes the nodes those of the slice.
fn copy_onto(nodes: &mut ArrayVec<Node, 64>, from: &[Node])
    requires { length from.now ≤ 64 }
    ensures { nodes.new.items ≡ from.now }
{
    nodes.clear();
    nodes.try_extend_from_slice(from).unwrap();
}

impl<H: Hash32> Frontier<H> {
    ghost use Rattle.base_merkle.specs.Holds.{Holds, MayAddLeaf, Marks};

    /// A tree without leaves.
    pub fn new(hasher: H) -> Frontier<H>
        ensures { Holds H.digest hasher result [] }
    {
        Frontier {
            nodes: ArrayVec::new(),
            count: 0,
            hasher,
        }
    }

    /// The number of leaves.
    pub fn count(&self) -> u64
        ensures { (h : H) (leaves : List (List ℕ)) → Holds H.digest h self.now leaves
            → result ≡ length leaves }
    {
        self.count
    }

    /// Adds a leaf behind the others. Besides the hash of the leaf it costs one hash of a node a call on
    /// average, and one for each node at most.
    pub fn push_leaf(&mut self, bytes: &[u8])
        requires { MayAddLeaf H.digest self.old }
        ensures { (h : H) (leaves : List (List ℕ)) → Holds H.digest h self.old leaves
            → Holds H.digest h self.new (leaves ++ bytes.now ∷ []) }
    {
        let hash = leaf_hash(self.hasher, bytes);
        self.push_leaf_hash(hash);
    }

    /// Adds a leaf behind the others, of which the hash is known: that of a zero byte and the leaf's bytes.
    pub fn push_leaf_hash(&mut self, hash: Hash)
        requires { MayAddLeaf H.digest self.old }
        ensures { (h : H) (leaves : List (List ℕ)) (leaf : List ℕ) → Holds H.digest h self.old leaves
            → hash ≡ H.digest h (0 ∷ leaf) → Holds H.digest h self.new (leaves ++ leaf ∷ []) }
    {
        put_on(self.hasher, &mut self.nodes, Node { size: 1, hash });
        self.count += 1;
    }

    /// The Merkle tree hash of the leaves (RFC 6962, section 2.1). It costs one hash for each node but one,
    /// so at most one for each binary digit of `count`.
    pub fn root(&self) -> Hash
        ensures { (h : H) (leaves : List (List ℕ)) → Holds H.digest h self.now leaves
            → result ≡ tree_hash (H.digest h) leaves }
    {
        root_of(self.hasher, &self.nodes)
    }

    /// What the tree is now. It copies at most 64 nodes.
    pub fn save(&self) -> FrontierMark
        ensures { (h : H) (leaves : List (List ℕ)) → Holds H.digest h self.now leaves
            → Marks (H.digest h) result leaves }
    {
        let mut nodes = ArrayVec::new();
        copy_onto(&mut nodes, &self.nodes);
        FrontierMark {
            nodes,
            count: self.count,
        }
    }

    /// Takes the tree back to the leaves that it had at the mark, or on to them. The mark may be of another
    /// tree with the same hash; of one with another hash nothing is said. It copies at most 64 nodes.
    pub fn restore(&mut self, mark: &FrontierMark)
        ensures { (h : H) (leaves before : List (List ℕ)) → Holds H.digest h self.old leaves
            → Marks (H.digest h) mark.now before → Holds H.digest h self.new before }
    {
        self.count = mark.count;
        copy_onto(&mut self.nodes, &mark.nodes);
    }
}
