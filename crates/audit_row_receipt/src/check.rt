//! Whether a receipt of rows is accepted with a digest.

ghost use Rattle.std.specs.Prelude.{ℕ, ◌≡◌, ◌≤◌, ◌&&◌, List, ◌∷◌, length, IfOk};
ghost use Rattle.std.specs.Bool.{Decides};
ghost use Rattle.format_row_receipt.specs.RowReceipts.{IsRowReceipt, IsTableReceipt};
ghost use Rattle.audit_row_receipt.specs.AcceptedRows.{AcceptedRow, AcceptedTable};

use crate::leaves::{are_in, table_of};
use crate::roots::has_root;
use audit_extract::tree_root;
use audit_paths::root_over;
use audit_receipt::check_receipt;
use base_merkle::Hash32;
use base_types::{Blob, Memory};
use format_row_receipt::{RowReceipt, TableReceipt};
use sql_types::HeldDigest;
use std::alloc::Global;

/// Whether a receipt of a transaction's events in a table is accepted with a digest.
pub fn check_table_receipt<H: Hash32>(
    alloc: Global,
    h: H,
    r: &TableReceipt,
    digest: &HeldDigest,
) -> Result<bool, Memory>
    requires { IsTableReceipt r.now }
    ensures { IfOk result (λ yes. Decides yes (AcceptedTable (H.digest h) r.now digest.now)) }
{
    let accepted = check_receipt(alloc, h, &r.receipt, digest)?;
    let tx = r.receipt.entry.id;
    let leaves = r.leaves.as_slice();
    match table_of(alloc, tx, first_leaf(leaves).bytes())? {
        Some(table) => {
            let all = are_in(alloc, tx, table, leaves)?;
            let rooted = has_root(
                r.receipt.entry.roots.as_slice(),
                table,
                &tree_root(h, leaves),
            );
            Ok(are_all(accepted, all, rooted))
        }
        None => Ok(false),
    }
}

fn first_leaf(leaves: &[Blob]) -> &Blob
    requires { 1 ≤ length leaves.now }
    ensures { (leaf : List ℕ) (more : List (List ℕ)) → leaves.now ≡ leaf ∷ more → result.now ≡ leaf }
{
    &leaves[0]
}

fn are_all(a: bool, b: bool, c: bool) -> bool
    ensures { result ≡ (a && (b && c)) }
{
    a && b && c
}

/// Whether a receipt of an event is accepted with a digest.
pub fn check_row_receipt<H: Hash32>(
    alloc: Global,
    h: H,
    r: &RowReceipt,
    digest: &HeldDigest,
) -> Result<bool, Memory>
    requires { IsRowReceipt r.now }
    ensures { IfOk result (λ yes. Decides yes (AcceptedRow (H.digest h) r.now digest.now)) }
{
    let accepted = check_receipt(alloc, h, &r.receipt, digest)?;
    match table_of(alloc, r.receipt.entry.id, r.leaf.bytes())? {
        Some(table) => {
            let root = root_over(h, r.leaf.bytes(), r.steps.as_slice());
            let rooted = has_root(r.receipt.entry.roots.as_slice(), table, &root);
            Ok(are_all(accepted, true, rooted))
        }
        None => Ok(false),
    }
}
