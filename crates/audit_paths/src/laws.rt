//! Laws of audit paths.

ghost use Rattle.std.specs.Prelude.{ℕ, ◌≡◌, ◌≤◌, ◌<◌, ◌-◌, ◌⊎◌, List, [], ◌∷◌, ◌++◌, length, take, drop, Some};
ghost use Rattle.std.specs.List.{slice_get};
ghost use Rattle.base_merkle.specs.TreeHash.{split_of, tree_hash};
ghost use Rattle.audit_extract.specs.Collisions.{HasCollisionBetween, IsAtNode};
ghost use Rattle.audit_paths.specs.Hashed.{IsHashedOver, IsHashedUnder};
ghost use Rattle.audit_paths.specs.Path.{AreHashes, AreSteps, Step, audit_path, root_over, root_under};

/// The equations of RFC 6962, section 2.1.1, of the path of a place in some leaves.
pub fn audit_path_law()
    ensures few { (h : List ℕ → List ℕ) (m : ℕ) (leaves : List (List ℕ))
        → length leaves < 2 → audit_path h m leaves ≡ [] }
    ensures front { (h : List ℕ → List ℕ) (m : ℕ) (leaves : List (List ℕ))
        → 2 ≤ length leaves → m < split_of (length leaves)
        → audit_path h m leaves ≡ audit_path h m (take (split_of (length leaves)) leaves)
        ++ tree_hash h (drop (split_of (length leaves)) leaves) ∷ [] }
    ensures back { (h : List ℕ → List ℕ) (m : ℕ) (leaves : List (List ℕ))
        → 2 ≤ length leaves → split_of (length leaves) ≤ m
        → audit_path h m leaves
        ≡ audit_path h (m - split_of (length leaves)) (drop (split_of (length leaves)) leaves)
        ++ tree_hash h (take (split_of (length leaves)) leaves) ∷ [] }
{}

/// The path of a leaf's place leads from it to the tree hash of all leaves, and it has hashes of 32 bytes where
/// the hash gives such.
pub fn paths_lead_to_the_root()
    ensures root { (h : List ℕ → List ℕ) (leaves : List (List ℕ)) (m : ℕ) (leaf : List ℕ)
        → slice_get leaves m ≡ Some leaf
        → root_under h (audit_path h m leaves) m (length leaves) leaf ≡ Some (tree_hash h leaves) }
    ensures hashes { (h : List ℕ → List ℕ) (leaves : List (List ℕ)) (m : ℕ)
        → ((bytes : List ℕ) → length (h bytes) ≡ 32) → AreHashes (audit_path h m leaves) }
{}

/// Two leaves that paths lead to one root from one place are one, or two different byte strings have one hash, of
/// which one is hashed on the way from one leaf and the other on that from the other.
pub fn leaves_under_one_root_are_one()
    ensures { (h : List ℕ → List ℕ) (a b root : List ℕ) (p q : List (List ℕ)) (m n : ℕ)
        → ((bytes : List ℕ) → length (h bytes) ≡ 32) → AreHashes p → AreHashes q
        → root_under h p m n a ≡ Some root → root_under h q m n b ≡ Some root
        → (a ≡ b) ⊎ HasCollisionBetween h (IsHashedUnder h p m n a) (IsHashedUnder h q m n b) }
{}

/// Steps that lead from a leaf to the tree hash of some leaves begin at one of these, or two different byte
/// strings have one hash, of which one is hashed on the way of the steps and the other at a node of the tree. How
/// many leaves there are isn't said.
pub fn steps_lead_from_a_leaf_of_the_tree()
    ensures { (h : List ℕ → List ℕ) (leaves : List (List ℕ)) (leaf : List ℕ) (steps : List Step)
        → ((bytes : List ℕ) → length (h bytes) ≡ 32) → AreSteps steps
        → root_over h leaf steps ≡ tree_hash h leaves
        → ((k : ℕ) × (slice_get leaves k ≡ Some leaf))
        ⊎ HasCollisionBetween h (IsHashedOver h leaf steps) (IsAtNode h leaves) }
{}
