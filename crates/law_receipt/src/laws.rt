//! Laws of receipts.

ghost use Rattle.std.specs.Prelude.{ℕ, ◌≡◌, ◌≤◌, ◌⊎◌, List, length, Some, None};
ghost use Rattle.std.specs.List.{slice_get};
ghost use Rattle.sql_types.specs.declared.digest.HeldDigest.{HeldDigest};
ghost use Rattle.sql_types.specs.declared.entry.TxEntry.{TxEntry};
ghost use Rattle.sql_types.specs.declared.image.Image.{Image};
ghost use Rattle.sql_types.specs.declared.journal.JournalItem.{JournalItem};
ghost use Rattle.spec_model.specs.Journals.{IsLegal};
ghost use Rattle.spec_model.specs.Script.{Reading};
ghost use Rattle.format_image.specs.Image.{image_of};
ghost use Rattle.format_image.specs.ImageBytes.{IsImage};
ghost use Rattle.spec_verify.specs.Blocks.{block_fault, chain_fault};
ghost use Rattle.spec_verify.specs.Sentences.{DigestHolds};
ghost use Rattle.law_accepts.specs.Held.{IsHeld};
ghost use Rattle.audit_extract.specs.Collisions.{HasCollisionBetween, IsHashedIn};
ghost use Rattle.format_receipt.specs.declared.receipt.Receipt.{Receipt};
ghost use Rattle.format_receipt.specs.Receipts.{IsReceipt};
ghost use Rattle.audit_receipt.specs.Accepted.{Accepted};
ghost use Rattle.audit_receipt.specs.Hashed.{IsHashedOf};
ghost use Rattle.audit_receipt.specs.Made.{receipt_of, part_at};

/// The receipt that an image gives of an entry is accepted with each digest that holds with the image and whose
/// block isn't before the entry's, where the image's chain and blocks hold.
pub fn made_receipts_are_accepted()
    ensures { (h : List ℕ → List ℕ) (i : Image) (d : HeldDigest) (k : ℕ) (e : TxEntry)
        → IsImage i → chain_fault h i ≡ None → block_fault h i ≡ None → DigestHolds h i d
        → slice_get i.entries k ≡ Some e → e.block ≤ d.block
        → Accepted h (receipt_of h i e d.block) d }
{}

/// Two receipts of one place that are accepted with one digest have one entry, or two different byte strings
/// have one hash, of which one is hashed where the one receipt is checked and the other where the other is.
pub fn accepted_receipts_of_one_place_are_one()
    ensures { (h : List ℕ → List ℕ) (a b : Receipt) (d : HeldDigest)
        → ((bytes : List ℕ) → length (h bytes) ≡ 32) → IsReceipt a → IsReceipt b
        → Accepted h a d → Accepted h b d
        → a.entry.block ≡ b.entry.block → a.entry.ordinal ≡ b.entry.ordinal
        → (a.entry ≡ b.entry) ⊎ HasCollisionBetween h (IsHashedOf h a) (IsHashedOf h b) }
{}

/// A receipt that is accepted with a digest has the very entry that each image has at its place with which the
/// digest holds and whose chain and blocks hold, as with each image that is accepted with the digest; or two
/// different byte strings have one hash, of which one is hashed where the receipt is checked and the other where the
/// image is verified. So no such image can contradict it.
pub fn accepted_receipts_agree_with_images()
    ensures { (h : List ℕ → List ℕ) (r : Receipt) (i : Image) (d : HeldDigest)
        → ((bytes : List ℕ) → length (h bytes) ≡ 32) → IsReceipt r → Accepted h r d
        → IsImage i → chain_fault h i ≡ None → block_fault h i ≡ None → DigestHolds h i d
        → (slice_get (part_at i.blocks i.entries r.entry.block) r.entry.ordinal ≡ Some r.entry)
        ⊎ HasCollisionBetween h (IsHashedOf h r) (IsHashedIn h i) }
{}

/// The receipt of an entry that a legal journal's image gives is accepted with each digest of a block that is
/// closed there and isn't before the entry's.
pub fn receipts_of_legal_journals_are_accepted()
    ensures { (h : List ℕ → List ℕ) (reads : Reading) (database : List ℕ) (items : List JournalItem)
        (d : HeldDigest) (k : ℕ) (e : TxEntry)
        → IsLegal reads items → IsImage (image_of h reads database items) → IsHeld h reads database items d
        → slice_get (image_of h reads database items).entries k ≡ Some e → e.block ≤ d.block
        → Accepted h (receipt_of h (image_of h reads database items) e d.block) d }
{}
