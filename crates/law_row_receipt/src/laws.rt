//! Laws of receipts of rows.

ghost use Rattle.std.specs.Prelude.{ℕ, ◌≡◌, ◌≤◌, ◌⊎◌, true, List, length, Some, None};
ghost use Rattle.std.specs.List.{slice_get};
ghost use Rattle.sql_types.specs.declared.digest.HeldDigest.{HeldDigest};
ghost use Rattle.sql_types.specs.declared.entry.TxEntry.{TxEntry};
ghost use Rattle.sql_types.specs.declared.event.Event.{Event};
ghost use Rattle.sql_types.specs.declared.image.Image.{Image};
ghost use Rattle.sql_types.specs.declared.version.Table.{Table};
ghost use Rattle.spec_model.specs.Events.{events_of};
ghost use Rattle.spec_ledger.specs.Entries.{has_events};
ghost use Rattle.format_image.specs.ImageBytes.{IsImage};
ghost use Rattle.format_image.specs.Tables.{tables_in};
ghost use Rattle.spec_verify.specs.Blocks.{block_fault, chain_fault};
ghost use Rattle.spec_verify.specs.Entries.{root_fault};
ghost use Rattle.spec_verify.specs.Sentences.{DigestHolds};
ghost use Rattle.audit_extract.specs.Collisions.{HasCollisionBetween, IsHashedIn};
ghost use Rattle.format_row_receipt.specs.declared.row_receipt.RowReceipt.{RowReceipt};
ghost use Rattle.format_row_receipt.specs.declared.table_receipt.TableReceipt.{TableReceipt};
ghost use Rattle.format_row_receipt.specs.RowReceipts.{IsRowReceipt, IsTableReceipt};
ghost use Rattle.audit_row_receipt.specs.AcceptedRows.{AcceptedRow, AcceptedTable};
ghost use Rattle.audit_row_receipt.specs.Hashed.{IsHashedOfRow, IsHashedOfTable};
ghost use Rattle.audit_row_receipt.specs.RowsMade.{IsMadeRow, IsMadeTable};
ghost use Rattle.law_row_receipt.specs.RowsMade.{row_receipt_of, table_receipt_of};
ghost use Rattle.law_row_receipt.specs.Shown.{HasAll, HasOne};

/// The leaves of a receipt that is accepted with a digest are those of all events of the transaction in the table, in
/// each image with which the digest holds and whose chain, blocks and roots hold, as in each image that is accepted
/// with the digest; or two different byte strings have one hash, of which one is hashed where the receipt is checked and
/// the other where the image is verified. So none was left out and none was added.
pub fn accepted_table_receipts_have_all_events()
    ensures { (h : List ℕ → List ℕ) (r : TableReceipt) (i : Image) (d : HeldDigest)
        → ((bytes : List ℕ) → length (h bytes) ≡ 32) → IsTableReceipt r → (x : AcceptedTable h r d)
        → IsImage i → chain_fault h i ≡ None → block_fault h i ≡ None → root_fault h i ≡ None
        → DigestHolds h i d
        → HasAll i r.receipt.entry.id x.table r.leaves
        ⊎ HasCollisionBetween h (IsHashedOfTable h r) (IsHashedIn h i) }
{}

/// The leaf of a receipt that is accepted with a digest is that of an event of the transaction in the table, in each
/// image with which the digest holds and whose chain, blocks and roots hold, as in each image that is accepted with
/// the digest; or two different byte strings have one hash, of which one is hashed where the receipt is checked and the
/// other where the image is verified. That the version still stands isn't said.
pub fn accepted_row_receipts_agree_with_images()
    ensures { (h : List ℕ → List ℕ) (r : RowReceipt) (i : Image) (d : HeldDigest)
        → ((bytes : List ℕ) → length (h bytes) ≡ 32) → IsRowReceipt r → (x : AcceptedRow h r d)
        → IsImage i → chain_fault h i ≡ None → block_fault h i ≡ None → root_fault h i ≡ None
        → DigestHolds h i d
        → HasOne i r.receipt.entry.id x.table r.leaf
        ⊎ HasCollisionBetween h (IsHashedOfRow h r) (IsHashedIn h i) }
{}

/// The receipt that an image gives of all events of an entry's transaction in a table, where it has some, is accepted
/// with each digest that holds with the image and whose block isn't before the entry's, where the image's chain,
/// blocks and roots hold.
pub fn made_table_receipts_are_accepted()
    ensures { (h : List ℕ → List ℕ) (i : Image) (d : HeldDigest) (k p : ℕ) (e : TxEntry) (t : Table)
        → IsImage i → chain_fault h i ≡ None → block_fault h i ≡ None → root_fault h i ≡ None
        → DigestHolds h i d
        → slice_get i.entries k ≡ Some e → e.block ≤ d.block
        → slice_get (tables_in i) p ≡ Some t → has_events e.id t ≡ true
        → AcceptedTable h (table_receipt_of h i e t d.block) d }
{}

/// So is the receipt that it gives of one of these events.
pub fn made_row_receipts_are_accepted()
    ensures { (h : List ℕ → List ℕ) (i : Image) (d : HeldDigest) (k p n : ℕ) (e : TxEntry) (t : Table)
        (event : Event)
        → IsImage i → chain_fault h i ≡ None → block_fault h i ≡ None → root_fault h i ≡ None
        → DigestHolds h i d
        → slice_get i.entries k ≡ Some e → e.block ≤ d.block
        → slice_get (tables_in i) p ≡ Some t → slice_get (events_of e.id t) n ≡ Some event
        → AcceptedRow h (row_receipt_of h i e t n event d.block) d }
{}

/// What `make_table_receipt` and `make_row_receipt` make of an image under the block of a digest that holds with it is
/// accepted with the digest, where the image's chain, blocks and roots hold.
pub fn receipts_made_of_rows_are_accepted()
    ensures table { (h : List ℕ → List ℕ) (i : Image) (d : HeldDigest) (tx table : ℕ) (r : TableReceipt)
        → IsImage i → chain_fault h i ≡ None → block_fault h i ≡ None → root_fault h i ≡ None
        → DigestHolds h i d → IsMadeTable h i tx table d.block r → AcceptedTable h r d }
    ensures row { (h : List ℕ → List ℕ) (i : Image) (d : HeldDigest) (tx table seq : ℕ) (r : RowReceipt)
        → IsImage i → chain_fault h i ≡ None → block_fault h i ≡ None → root_fault h i ≡ None
        → DigestHolds h i d → IsMadeRow h i tx table seq d.block r → AcceptedRow h r d }
{}
