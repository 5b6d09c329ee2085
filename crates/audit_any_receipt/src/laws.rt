//! Laws of receipts of any kind.

ghost use Rattle.std.specs.Prelude.{ℕ, ◌≡◌, List, length};
ghost use Rattle.sql_types.specs.declared.digest.HeldDigest.{HeldDigest};
ghost use Rattle.audit_any_receipt.specs.declared.any.AnyReceipt.{AnyReceipt};
ghost use Rattle.audit_any_receipt.specs.Among.{IsAcceptedBy};
ghost use Rattle.audit_any_receipt.specs.Kinds.{IsAny, any_bytes};
ghost use Rattle.audit_any_receipt.specs.Shows.{EachImageShows};

/// No two receipts, of whatever kinds, have one spelling.
pub fn equal_bytes_are_of_equal_receipts_of_any_kind()
    ensures { (r s : AnyReceipt) → IsAny r → IsAny s → any_bytes r ≡ any_bytes s → r ≡ s }
{}

/// A receipt that is accepted with a digest can't be contradicted by any image that `verify` accepts with this digest,
/// alone or among others: the image has the receipt's entry at its place, and its events; of a chain each digest that
/// is held holds with the image. Or two different byte strings have one hash, of which one is hashed where the receipt
/// is checked and the other where the image is verified.
pub fn accepted_receipts_are_never_contradicted()
    ensures { (h : List ℕ → List ℕ) (r : AnyReceipt) (d : HeldDigest) (held : List HeldDigest)
        → ((bytes : List ℕ) → length (h bytes) ≡ 32) → IsAny r → (x : IsAcceptedBy h r d held)
        → EachImageShows h r d held x }
{}
