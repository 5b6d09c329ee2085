//! A receipt of any kind, and its bytes.

ghost use Rattle.std.specs.Prelude.{◌≡◌, IfOk};
ghost use Rattle.audit_any_receipt.specs.Kinds.{IsAny, ReadsAny, ReadsFrom, any_bytes, records_of};

use audit_chain::Chain;
use audit_row_receipt::{RowReceipt, TableReceipt};
use base_types::Memory;
use format_chain::{read_chain, write_chain};
use format_receipt::{Receipt, read_receipt, write_receipt};
use format_row_receipt::{
    read_row_receipt, read_table_receipt, write_row_receipt, write_table_receipt,
};
use sql_types::BlockRecord;
use std::alloc::Global;

/// A receipt of any kind.
#[derive(Debug, Drop)]
pub enum AnyReceipt {
    /// Of a transaction.
    Entry(Receipt),
    /// Of all of its events in a table.
    Table(TableReceipt),
    /// Of one of them.
    Event(RowReceipt),
    /// Of digests: that the newest continues the histories of the others.
    Chain(Chain),
}

/// The bytes of a receipt that has a spelling.
pub fn write_any(alloc: Global, r: &AnyReceipt) -> Result<Vec<u8>, Memory>
    requires { IsAny r.now }
    ensures { IfOk result (λ v. v.items ≡ any_bytes r.now) }
{
    match r {
        AnyReceipt::Entry(receipt) => write_receipt(alloc, receipt),
        AnyReceipt::Table(receipt) => write_table_receipt(alloc, receipt),
        AnyReceipt::Event(receipt) => write_row_receipt(alloc, receipt),
        AnyReceipt::Chain(chain) => write_chain(alloc, chain),
    }
}

/// The receipt whose bytes these are, all of them, or None exactly where they are those of none. The first four bytes
/// tell its kind.
pub fn read_any(alloc: Global, bytes: &[u8]) -> Result<Option<AnyReceipt>, Memory>
    ensures { IfOk result (ReadsAny bytes.now) }
{
    match read_receipt(alloc, bytes)? {
        Some(receipt) => Ok(Some(AnyReceipt::Entry(receipt))),
        None => read_table_on(alloc, bytes),
    }
}

// The receipt of a table, or one of the kinds behind.
fn read_table_on(alloc: Global, bytes: &[u8]) -> Result<Option<AnyReceipt>, Memory>
    ensures { IfOk result (ReadsFrom 1 bytes.now) }
{
    match read_table_receipt(alloc, bytes)? {
        Some(receipt) => Ok(Some(AnyReceipt::Table(receipt))),
        None => read_event_on(alloc, bytes),
    }
}

fn read_event_on(alloc: Global, bytes: &[u8]) -> Result<Option<AnyReceipt>, Memory>
    ensures { IfOk result (ReadsFrom 2 bytes.now) }
{
    match read_row_receipt(alloc, bytes)? {
        Some(receipt) => Ok(Some(AnyReceipt::Event(receipt))),
        None => read_chain_alone(alloc, bytes),
    }
}

fn read_chain_alone(alloc: Global, bytes: &[u8]) -> Result<Option<AnyReceipt>, Memory>
    ensures { IfOk result (ReadsFrom 3 bytes.now) }
{
    match read_chain(alloc, bytes)? {
        Some(chain) => Ok(Some(AnyReceipt::Chain(chain))),
        None => Ok(None),
    }
}

/// The records of blocks up to that of the digest.
pub(crate) fn records_of(r: &AnyReceipt) -> &[BlockRecord]
    ensures { result.now ≡ records_of r.now }
{
    match r {
        AnyReceipt::Entry(receipt) => receipt.records.as_slice(),
        AnyReceipt::Table(receipt) => receipt.receipt.records.as_slice(),
        AnyReceipt::Event(receipt) => receipt.receipt.records.as_slice(),
        AnyReceipt::Chain(chain) => chain.records.as_slice(),
    }
}
