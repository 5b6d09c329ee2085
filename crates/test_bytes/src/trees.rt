// A tree over a hash of another kind. The roots by SHA-256 are cases of the stored run.
ghost use Rattle.std.specs.Prelude.{◌≡◌, ◌<◌, ◌+◌, ℕ, List, length, replicate, refl};
ghost use Rattle.base_merkle.specs.Holds.{Holds};

use base_merkle::{Frontier, Hash, Hash32, Sha256Hash, root_of_leaf};

// The hash that is the same for all bytes.
#[derive(Clone, Copy, Debug)]
struct WeakHash;

impl Hash32 for WeakHash {
    ghost digest = { λ _ bytes. replicate 32 0 };

    ghost sized = { λ _ bytes. refl };

    fn hash(&self, _head: &[u8], _rest: &[u8]) -> Hash {
        [0; 32]
    }
}

fn push_all<H: Hash32>(tree: &mut Frontier<H>, leaves: &[&[u8]])
    requires few { tree.old.count + length leaves.now < 100 }
    requires before { (h : H) × (before : List (List ℕ)) × Holds H.digest h tree.old before }
    ensures after { (h : H) × (after : List (List ℕ)) × Holds H.digest h tree.new after }
{
    for leaf in leaves {
        tree.push_leaf(leaf);
    }
}

#[test]
fn a_weak_hash_serves_a_tree(rt: HostRuntime) {
    let mut tree = Frontier::new(WeakHash);
    push_all(&mut tree, &[b"a", b"b", b"c"]);
    assert_eq!(rt; tree.count(), 3);
    assert!(rt; tree.root() == [0; 32]);
}

// The published root of the empty leaf, as it begins.
#[test]
fn a_leaf_has_a_root_of_its_own(rt: HostRuntime) {
    let root = root_of_leaf(Sha256Hash, b"");
    assert!(rt; root.starts_with(b"\x6e\x34\x0b\x9c"));
}
