//! The law of the bytes of receipts.

ghost use Rattle.std.specs.Prelude.{◌≡◌};
ghost use Rattle.format_receipt.specs.declared.receipt.Receipt.{Receipt};
ghost use Rattle.format_receipt.specs.Receipts.{IsReceipt, receipt_bytes};

/// No two receipts have one spelling.
pub fn equal_bytes_are_of_equal_receipts()
    ensures { (r s : Receipt) → IsReceipt r → IsReceipt s → receipt_bytes r ≡ receipt_bytes s → r ≡ s }
{}
