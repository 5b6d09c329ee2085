//! What the items of a journal owe one another.

ghost use Rattle.std.specs.Prelude.{◌≡◌, ◌&&◌, List, [], ◌∷◌, IfOk};
ghost use Rattle.sql_types.specs.declared.journal.JournalItem.{JournalItem};
ghost use Rattle.sql_types.specs.JournalRules.{ids_differ, closes_follow};

use base_types::{Memory, TxId};
use sql_types::JournalItem;
use std::alloc::Global;
use std::collections::BTreeSet;

/// Whether the ids of the transactions are all different. Each costs a look-up in an ordered set.
pub(crate) fn ids_differ(alloc: Global, items: &[JournalItem]) -> Result<bool, Memory>
    ensures { IfOk result (λ b. b ≡ ids_differ [] items.now) }
{
    let mut before = BTreeSet::new(alloc);
    for item in items {
        if !is_new(item, &mut before)? {
            return Ok(false);
        }
    }
    Ok(true)
}

// Whether the item's id, if it has one, is none of those before. It is one of them afterwards.
fn is_new(item: &JournalItem, before: &mut BTreeSet<TxId>) -> Result<bool, Memory>
    ensures { IfOk result (λ is_new. (items : List JournalItem)
        → ids_differ before.old.keys (item.now ∷ items) ≡ (is_new && ids_differ before.new.keys items)) }
{
    match item {
        JournalItem::Tx { id, .. } => Ok(before.insert(*id)?),
        JournalItem::Close(_) => Ok(true),
    }
}

/// Whether each closing takes no more transactions than are pending there.
pub(crate) fn closes_follow(items: &[JournalItem]) -> bool
    ensures { result ≡ closes_follow 0 items.now }
{
    let mut pending = 0u64;
    for item in items {
        match item {
            JournalItem::Tx { .. } => pending += 1,
            JournalItem::Close(count) => {
                let count = u64::from(*count);
                if count > pending {
                    return false;
                }
                pending -= count;
            }
        }
    }
    true
}
