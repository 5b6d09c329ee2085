//! What INSERT, UPDATE and DELETE want.

ghost use Rattle.std.specs.Prelude.{◌≡◌, IfOk};
ghost use Rattle.spec_model.specs.Locks as spec;

use crate::inserted::key_requests;
use base_types::Memory;
use sql_change::WrittenNames;
use sql_parts::{KeyedTable, key_fixed};
use sql_types::{Item, Key, LockRequest, Mode, RowStmt};
use std::alloc::Global;

/// A lock on the whole table.
pub(crate) fn whole(mode: Mode) -> LockRequest
    ensures { result ≡ spec.whole mode }
{
    LockRequest {
        item: Item::Whole,
        mode,
    }
}

/// A lock on a key.
pub(crate) fn of_key(mode: Mode, key: Key) -> LockRequest
    ensures { result ≡ spec.of_key mode key }
{
    LockRequest {
        item: Item::Key(key),
        mode,
    }
}

/// An intent on the table and a lock on the key, where there is one, and else a lock on the table.
pub(crate) fn by_key_or_whole(
    alloc: Global,
    intent: Mode,
    mode: Mode,
    key: Option<Key>,
) -> Result<Vec<LockRequest>, Memory>
    ensures { IfOk result (λ requests. requests.items ≡ spec.by_key_or_whole intent mode key) }
{
    match key {
        Some(key) => Ok(Vec::from_array(alloc, [whole(intent), of_key(mode, key)])?),
        None => Ok(Vec::from_array(alloc, [whole(mode)])?),
    }
}

/// What an INSERT, UPDATE or DELETE wants in the table's cell: X on each key that it may change and an intent
/// on the table, where these keys are known before any row is read, and else X on the table. UPDATE and DELETE
/// know the key that their condition fixes; INSERT those of its rows, where all their values for the key convert
/// and none of these is NULL.
#[tactic(auto, unfolding(spec_model::specs::Locks::row_requests))]
pub fn row_requests(
    alloc: Global,
    table: &KeyedTable,
    stmt: &RowStmt,
) -> Result<Vec<LockRequest>, Memory>
    ensures { IfOk result (λ requests. requests.items ≡ spec.row_requests table.now stmt.now) }
{
    match stmt {
        RowStmt::Insert { columns, rows, .. } => {
            let names = WrittenNames::of(alloc, table.def(), columns)?;
            key_requests(alloc, table, names.get(), rows.as_slice())
        }
        RowStmt::Update { cond, .. } | RowStmt::Delete { cond, .. } => {
            by_key_or_whole(alloc, Mode::IX, Mode::X, key_fixed(alloc, table, cond)?)
        }
    }
}
