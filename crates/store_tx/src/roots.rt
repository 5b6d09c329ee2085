//! The roots of the trees of a transaction.

ghost use Rattle.std.specs.Prelude.{◌≡◌, ◌≤◌, nat_le, length, map, IfOk, OnOk, List, ℕ};
ghost use Rattle.std.specs.List.{list_all, position, position_or_len};
ghost use Rattle.base_merkle.specs.Holds.{Holds};
ghost use Rattle.spec_protocol.specs.Serial.{Differ};
ghost use Rattle.spec_model.specs.Lists.{inserted};
ghost use Rattle.spec_protocol.specs.LedgerVisits.{is_empty};
ghost use Rattle.spec_protocol.specs.Seats.{Tree};
ghost use Rattle.store_tx.specs.Roots.{by_root, roots_of_trees, with_root};
ghost use Rattle.store_tx.specs.Trees.{TreesHold, tables_of};

use crate::tree::TableTree;
use base_merkle::Hash32;
use base_types::{Hash, Items, Memory, TableId};
use std::alloc::Global;

fn first_behind(roots: &[(TableId, Hash)], table: TableId) -> Option<usize>
    ensures { result ≡ position (λ r. nat_le table r.0) roots.now }
{
    roots.iter().position(|root| table <= root.0)
}

// Where the root of a table belongs. A transaction touches few tables, so the search is one by one.
fn place_of(roots: &[(TableId, Hash)], table: TableId) -> usize
    ensures place { result ≡ position_or_len (λ r. nat_le table r.0) roots.now }
    ensures within { result ≤ length roots.now }
{
    first_behind(roots, table).unwrap_or(roots.len())
}

// Puts a root before those of greater tables.
fn insert_root(roots: &mut Vec<(TableId, Hash)>, root: (TableId, Hash)) -> Result<(), Memory>
    ensures { OnOk result (roots.new.items ≡ inserted by_root root roots.old.items) }
{
    let place = place_of(roots, root.0);
    roots.insert(place, root)?;
    Ok(())
}

// Adds the root of a tree, where it has a leaf.
fn add_root<H: Hash32>(tree: &TableTree<H>, roots: &mut Vec<(TableId, Hash)>) -> Result<(), Memory>
    ensures { OnOk result ((h : H) (leaves : List (List ℕ)) → Holds H.digest h tree.now.frontier leaves
        → roots.new.items ≡ with_root (H.digest h) tree.now.table leaves roots.old.items) }
{
    if tree.frontier.count() == 0 {
        return Ok(());
    }
    insert_root(roots, (tree.table, tree.frontier.root()))
}

/// Whether no tree has a leaf.
pub(crate) fn have_no_leaf<H: Hash32>(trees: &[TableTree<H>]) -> bool
    ensures { (h : H) (model : List Tree) → Differ (tables_of trees.now)
        → Differ (map (λ t. t.table) model) → TreesHold H.digest h trees.now model
        → result ≡ list_all (λ t. is_empty t.leaves) model }
{
    for tree in trees {
        if tree.frontier.count() != 0 {
            return false;
        }
    }
    true
}

/// The root of each tree that has a leaf, by rising table.
pub(crate) fn roots_of<H: Hash32>(
    alloc: Global,
    trees: &[TableTree<H>],
) -> Result<Items<(TableId, Hash)>, Memory>
    ensures { IfOk result (λ roots. (h : H) (model : List Tree) → Differ (tables_of trees.now)
        → Differ (map (λ t. t.table) model) → TreesHold H.digest h trees.now model
        → roots ≡ roots_of_trees (H.digest h) model) }
{
    let mut roots = Vec::with_capacity(alloc, trees.len())?;
    for tree in trees {
        add_root(tree, &mut roots)?;
    }
    Ok(Items::from_vec(roots))
}
