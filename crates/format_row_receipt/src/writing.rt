//! Writing the bytes of receipts of rows.

ghost use Rattle.std.specs.Prelude.{◌≡◌, IfOk};
ghost use Rattle.format_row_receipt.specs.RowReceipts.{IsRowReceipt, IsTableReceipt, row_receipt_bytes, table_receipt_bytes};

use crate::body::put_body;
use crate::leaves::{put_leaf, put_leaves};
use crate::row_receipt::RowReceipt;
use crate::steps::put_steps;
use crate::table_receipt::TableReceipt;
use base_fields::put_u8;
use base_types::Memory;
use std::alloc::Global;

/// The bytes of a receipt of a transaction's events in a table that has a spelling.
#[tactic(auto, unfolding(crate::specs::RowReceipts::table_receipt_bytes))]
pub fn write_table_receipt(alloc: Global, r: &TableReceipt) -> Result<Vec<u8>, Memory>
    requires { IsTableReceipt r.now }
    ensures { IfOk result (λ v. v.items ≡ table_receipt_bytes r.now) }
{
    let mut out = Vec::new(alloc);
    out.extend_from_slice(b"LGRA")?;
    put_u8(&mut out, 1)?;
    put_body(alloc, &r.receipt, &mut out)?;
    put_leaves(r.leaves.as_slice(), &mut out)?;
    Ok(out)
}

/// The bytes of a receipt of an event that has a spelling.
#[tactic(auto, unfolding(crate::specs::RowReceipts::row_receipt_bytes))]
pub fn write_row_receipt(alloc: Global, r: &RowReceipt) -> Result<Vec<u8>, Memory>
    requires { IsRowReceipt r.now }
    ensures { IfOk result (λ v. v.items ≡ row_receipt_bytes r.now) }
{
    let mut out = Vec::new(alloc);
    out.extend_from_slice(b"LGRR")?;
    put_u8(&mut out, 1)?;
    put_body(alloc, &r.receipt, &mut out)?;
    put_leaf(&r.leaf, &mut out)?;
    put_steps(r.steps.as_slice(), &mut out)?;
    Ok(out)
}
