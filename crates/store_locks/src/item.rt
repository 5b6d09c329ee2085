//! Items: their order, and copies of them.

ghost use Rattle.std.specs.Prelude.{◌≡◌, IfOk};
ghost use Rattle.spec_model.specs.Keys.{key_cmp};
ghost use Rattle.spec_model.specs.Locks.{same_item};
ghost use Rattle.store_locks.specs.Items.{item_cmp};

use base_types::{Items, Memory};
use sql_types::{Item, Key};
use std::alloc::Global;
use std::cmp::Ordering;

/// An equal one.
pub(crate) fn copy_of_item(alloc: Global, item: &Item) -> Result<Item, Memory>
    ensures { IfOk result (λ copy. copy ≡ item.now) }
{
    match item {
        Item::Whole => Ok(Item::Whole),
        Item::Key(key) => Ok(Item::Key(copy_of_key(alloc, key)?)),
    }
}

fn copy_of_key(alloc: Global, key: &Key) -> Result<Key, Memory>
    ensures { IfOk result (λ copy. copy ≡ key.now) }
{
    let mut copy = Items::new(alloc);
    for value in key.as_slice() {
        copy.push(value.copy()?)?;
    }
    Ok(copy)
}

/// The order of items: the whole, and then the keys in theirs.
#[tactic(auto, unfolding(crate::specs::Items::item_cmp, spec_model::specs::Keys::key_cmp))]
pub(crate) fn compare_items(a: &Item, b: &Item) -> Ordering
    ensures { result ≡ item_cmp a.now b.now }
{
    match (a, b) {
        (Item::Whole, Item::Whole) => Ordering::Equal,
        (Item::Whole, Item::Key(_)) => Ordering::Less,
        (Item::Key(_), Item::Whole) => Ordering::Greater,
        (Item::Key(x), Item::Key(y)) => compare_keys(x, y),
    }
}

#[tactic(auto, unfolding(spec_model::specs::Keys::key_cmp))]
fn compare_keys(a: &Key, b: &Key) -> Ordering
    ensures { result ≡ key_cmp a.now b.now }
{
    a.as_slice().cmp(b.as_slice())
}

/// Whether they are one.
#[tactic(auto, unfolding(spec_model::specs::Locks::same_item, spec_model::specs::Keys::same_key))]
pub(crate) fn same_item(a: &Item, b: &Item) -> bool
    ensures { result ≡ same_item a.now b.now }
{
    match (a, b) {
        (Item::Whole, Item::Whole) => true,
        (Item::Key(x), Item::Key(y)) => compare_keys(x, y).is_eq(),
        _ => false,
    }
}
