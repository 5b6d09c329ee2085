//! Reading the bytes of receipts of rows.

ghost use Rattle.std.specs.Prelude.{◌≡◌, Some, IfOk, IfSome};
ghost use Rattle.base_fields.specs.Reading.{ReadsAs};
ghost use Rattle.format_row_receipt.specs.declared.row_receipt.RowReceipt.{RowReceipt};
ghost use Rattle.format_row_receipt.specs.declared.table_receipt.TableReceipt.{TableReceipt};
ghost use Rattle.format_row_receipt.specs.RowReceipts.{IsRowReceipt, IsTableReceipt, row_receipt_bytes, table_receipt_bytes};
ghost use Rattle.format_row_receipt.specs.RowReading.{row_receipt_at, table_receipt_at};

use crate::body::body_at;
use crate::leaves::{leaf_at, leaves_at};
use crate::row_receipt::RowReceipt;
use crate::steps::steps_at;
use crate::table_receipt::TableReceipt;
use base_fields::{ReadError, literal, whole};
use base_types::Memory;
use std::alloc::Global;

/// The receipt of a transaction's events in a table whose bytes these are, all of them, or None exactly where they
/// are those of none.
pub fn read_table_receipt(alloc: Global, bytes: &[u8]) -> Result<Option<TableReceipt>, Memory>
    ensures found { IfOk result (λ read.
        IfSome read (λ r. IsTableReceipt r × (bytes.now ≡ table_receipt_bytes r))) }
    ensures only { (r : TableReceipt) → IsTableReceipt r → bytes.now ≡ table_receipt_bytes r
        → IfOk result (λ read. read ≡ Some r) }
{
    let found = whole(table_receipt_at(alloc, bytes))?;
    Ok(found)
}

#[tactic(auto, unfolding(crate::specs::RowReading::table_receipt_at))]
fn table_receipt_at(alloc: Global, bytes: &[u8]) -> Result<(TableReceipt, &[u8]), ReadError>
    ensures { ReadsAs (λ x. (x.0, x.1.now)) result (table_receipt_at bytes.now) }
{
    let rest = literal(b"LGRA", bytes)?;
    let rest = literal(&[1], rest)?;
    let (receipt, rest) = body_at(alloc, rest)?;
    let (leaves, rest) = leaves_at(alloc, rest)?;
    Ok((TableReceipt { receipt, leaves }, rest))
}

/// The receipt of an event whose bytes these are, all of them, or None exactly where they are those of none.
pub fn read_row_receipt(alloc: Global, bytes: &[u8]) -> Result<Option<RowReceipt>, Memory>
    ensures found { IfOk result (λ read.
        IfSome read (λ r. IsRowReceipt r × (bytes.now ≡ row_receipt_bytes r))) }
    ensures only { (r : RowReceipt) → IsRowReceipt r → bytes.now ≡ row_receipt_bytes r
        → IfOk result (λ read. read ≡ Some r) }
{
    let found = whole(row_receipt_at(alloc, bytes))?;
    Ok(found)
}

#[tactic(auto, unfolding(crate::specs::RowReading::row_receipt_at))]
fn row_receipt_at(alloc: Global, bytes: &[u8]) -> Result<(RowReceipt, &[u8]), ReadError>
    ensures { ReadsAs (λ x. (x.0, x.1.now)) result (row_receipt_at bytes.now) }
{
    let rest = literal(b"LGRR", bytes)?;
    let rest = literal(&[1], rest)?;
    let (receipt, rest) = body_at(alloc, rest)?;
    let (leaf, rest) = leaf_at(alloc, rest)?;
    let (steps, rest) = steps_at(alloc, rest)?;
    let r = RowReceipt {
        receipt,
        leaf,
        steps,
    };
    Ok((r, rest))
}
