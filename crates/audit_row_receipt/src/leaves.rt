//! The tables of leaves.

ghost use Rattle.std.specs.Prelude.{◌≡◌, Some, IfOk};
ghost use Rattle.std.specs.Bool.{Decides};
ghost use Rattle.std.specs.List.{AllByRecursion};
ghost use Rattle.audit_row_receipt.specs.AcceptedRows.{IsLeafIn, Tells};

use base_types::{Blob, Memory, TableId, TxId, first_of};
use format_event::read_event;
use std::alloc::Global;

/// The table in which a leaf is that of an event of a transaction, if it is one.
pub(crate) fn table_of(alloc: Global, tx: TxId, leaf: &[u8]) -> Result<Option<TableId>, Memory>
    ensures { IfOk result (λ table. Tells tx leaf.now table) }
{
    match read_event(alloc, leaf)? {
        Some(event) => {
            if event.tx == tx {
                Ok(Some(event.table))
            } else {
                Ok(None)
            }
        }
        None => Ok(None),
    }
}

/// Whether all leaves are those of events of a transaction in a table.
pub(crate) fn are_in(
    alloc: Global,
    tx: TxId,
    table: TableId,
    leaves: &[Blob],
) -> Result<bool, Memory>
    ensures { IfOk result (λ yes. Decides yes (AllByRecursion (IsLeafIn tx table) leaves.now)) }
{
    let mut rest = leaves;
    'each: while let Some((leaf, more)) = first_of(rest) {
        if !is_in(alloc, tx, table, leaf.bytes())? {
            return Ok(false);
        }
        rest = more;
    }
    Ok(true)
}

fn is_in(alloc: Global, tx: TxId, table: TableId, leaf: &[u8]) -> Result<bool, Memory>
    ensures { IfOk result (λ yes. Decides yes (IsLeafIn tx table leaf.now)) }
{
    let found = table_of(alloc, tx, leaf)?;
    Ok(is_table(found, table))
}

fn is_table(found: Option<TableId>, table: TableId) -> bool
    ensures { Decides result (found ≡ Some table) }
{
    found == Some(table)
}
