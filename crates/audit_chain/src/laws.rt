//! Laws of chains.

ghost use Rattle.std.specs.Prelude.{ℕ, ◌≡◌, ◌≤◌, ◌⊎◌, List, None, Contains};
ghost use Rattle.std.specs.List.{AllByRecursion};
ghost use Rattle.sql_types.specs.declared.digest.HeldDigest.{HeldDigest};
ghost use Rattle.sql_types.specs.declared.image.Image.{Image};
ghost use Rattle.format_image.specs.ImageBytes.{IsImage};
ghost use Rattle.spec_verify.specs.Blocks.{block_fault, chain_fault};
ghost use Rattle.spec_verify.specs.Sentences.{DigestHolds};
ghost use Rattle.audit_extract.specs.Collisions.{HasCollisionBetween, IsHashedIn, IsRecordAmong};
ghost use Rattle.format_chain.specs.declared.chain.Chain.{Chain};
ghost use Rattle.format_chain.specs.Chains.{IsChain};
ghost use Rattle.audit_chain.specs.Continues.{Continues};
ghost use Rattle.audit_chain.specs.Joins.{IsWithin, Joins, chain_of};

/// The chain that an image gives from the block of one digest to that of another joins the two, where both hold
/// with the image and its chain and blocks hold.
pub fn made_chains_join()
    ensures { (h : List ℕ → List ℕ) (i : Image) (older newer : HeldDigest)
        → IsImage i → chain_fault h i ≡ None → block_fault h i ≡ None
        → DigestHolds h i older → DigestHolds h i newer → older.block ≤ newer.block
        → Joins h (chain_of i older.block newer.block) older newer }
{}

/// Where a chain joins two digests, each image that holds with the newer one, and whose chain and blocks hold,
/// holds with the older one; or two different byte strings have one hash, of which one is a record of the chain and
/// the other is hashed where the image is verified. So nobody can show, under the newer digest, a history that isn't
/// the older one's: the newest digest alone is enough to keep.
pub fn accepted_chains_tell_one_history()
    ensures { (h : List ℕ → List ℕ) (c : Chain) (older newer : HeldDigest) (i : Image)
        → IsChain c → Joins h c older newer
        → IsImage i → chain_fault h i ≡ None → block_fault h i ≡ None → DigestHolds h i newer
        → DigestHolds h i older ⊎ HasCollisionBetween h (IsRecordAmong c.records) (IsHashedIn h i) }
{}

/// The chain that an image gives from a block to that of the newest digest joins each digest of these blocks that holds
/// with the image, where its chain and blocks hold; so it shows that the newest one continues the histories of all.
pub fn made_chains_continue()
    ensures { (h : List ℕ → List ℕ) (i : Image) (from : ℕ) (newest : HeldDigest) (digests : List HeldDigest)
        → IsImage i → chain_fault h i ≡ None → block_fault h i ≡ None
        → DigestHolds h i newest → AllByRecursion (DigestHolds h i) digests → from ≤ newest.block
        → AllByRecursion (IsWithin from newest.block) digests
        → Continues h (chain_of i from newest.block) newest digests }
{}

/// Where a chain shows that the newest digest continues the histories of others, each image that holds with the newest
/// one, and whose chain and blocks hold, holds with each of the others; or two different byte strings have one hash, of
/// which one is a record of the chain and the other is hashed where the image is verified.
pub fn newest_digests_tell_all_histories()
    ensures { (h : List ℕ → List ℕ) (c : Chain) (newest older : HeldDigest) (digests : List HeldDigest) (i : Image)
        → IsChain c → Continues h c newest digests
        → IsImage i → chain_fault h i ≡ None → block_fault h i ≡ None → DigestHolds h i newest
        → Contains digests older
        → DigestHolds h i older ⊎ HasCollisionBetween h (IsRecordAmong c.records) (IsHashedIn h i) }
{}
