//! Laws of the bytes of receipts of rows.

ghost use Rattle.std.specs.Prelude.{◌≡◌};
ghost use Rattle.format_row_receipt.specs.declared.row_receipt.RowReceipt.{RowReceipt};
ghost use Rattle.format_row_receipt.specs.declared.table_receipt.TableReceipt.{TableReceipt};
ghost use Rattle.format_row_receipt.specs.RowReceipts.{IsRowReceipt, IsTableReceipt, row_receipt_bytes, table_receipt_bytes};

/// No two receipts of one kind have one spelling.
pub fn equal_bytes_are_of_equal_row_receipts()
    ensures table { (r s : TableReceipt) → IsTableReceipt r → IsTableReceipt s
        → table_receipt_bytes r ≡ table_receipt_bytes s → r ≡ s }
    ensures row { (r s : RowReceipt) → IsRowReceipt r → IsRowReceipt s
        → row_receipt_bytes r ≡ row_receipt_bytes s → r ≡ s }
{}
