//! The forms of a journal's names, moments and ids.

ghost use Rattle.std.specs.Prelude.{◌≡◌, true, false};
ghost use Rattle.std.specs.List.{AllByRecursion};
ghost use Rattle.base_types.specs.DatabaseName.{is_database_name};
ghost use Rattle.sql_types.specs.JournalRules.{ItemRules, is_alone, is_block_size};

use base_types::{is_database_name, is_moment, is_session_name, is_tx_id};
use sql_types::{JournalItem, MAX_BLOCK, Script};
use store_ledger::LedgerCell;

/// Whether the database has the form of a name and each item of the journal keeps its rules, as in each
/// journal that a server writes.
pub(crate) fn has_forms(ledger: &LedgerCell) -> bool
    ensures database { result ≡ true → is_database_name ledger.now.cell.database ≡ true }
    ensures items { result ≡ true → AllByRecursion ItemRules ledger.now.cell.items }
    ensures broken { result ≡ false → is_database_name ledger.now.cell.database ≡ true
        → ¬ AllByRecursion ItemRules ledger.now.cell.items }
{
    is_database_name(ledger.database().bytes()) && keep_rules(ledger.items())
}

fn keep_rules(items: &[JournalItem]) -> bool
    ensures kept { result ≡ true → AllByRecursion ItemRules items.now }
    ensures broken { result ≡ false → ¬ AllByRecursion ItemRules items.now }
{
    for item in items {
        if !keeps_rules(item) {
            return false;
        }
    }
    true
}

fn keeps_rules(item: &JournalItem) -> bool
    ensures kept { result ≡ true → ItemRules item.now }
    ensures broken { result ≡ false → ¬ ItemRules item.now }
{
    match item {
        JournalItem::Tx {
            id,
            session,
            time,
            explicit,
            script,
        } => {
            is_tx_id(*id)
                && is_session_name(session.bytes())
                && is_moment(*time)
                && is_alone(*explicit, script)
        }
        JournalItem::Close(count) => is_block_size(*count),
    }
}

// Whether so many statements may be a transaction's: one that BEGIN didn't open has one.
fn is_alone(explicit: bool, script: &Script) -> bool
    ensures { result ≡ is_alone explicit script.now }
{
    explicit || script.len() == 1
}

fn is_block_size(count: u32) -> bool
    ensures { result ≡ is_block_size count }
{
    1 <= count && count <= MAX_BLOCK
}
