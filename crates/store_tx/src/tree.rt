//! The trees of a transaction, one for each table.

ghost use Rattle.std.specs.Prelude.{◌≡◌, ◌≢◌, ◌==◌, ◌++◌, ◌∷◌, []};
ghost use Rattle.std.specs.Prelude.{IfOk, OnOk, List, ℕ, Some, length, slice_get};
ghost use Rattle.std.specs.List.{position};
ghost use Rattle.std.specs.Option.{option_copied};
ghost use Rattle.base_merkle.specs.declared.frontier.Frontier.{Frontier as SpecFrontier};
ghost use Rattle.spec_protocol.specs.Serial.{Differ};
ghost use Rattle.base_merkle.specs.Holds.{MayAddLeaf, Holds};
ghost use Rattle.store_tx.specs.Trees.{IsTree, IsMark, mark_of, tables_of, tree_of};

use base_merkle::{Frontier, FrontierMark, Hash32};
use base_types::{Memory, TableId};
use std::alloc::Global;

/// The tree over a transaction's events in one table.
#[derive(Drop)]
pub struct TableTree<H: Hash32> {
    pub frontier: Frontier<H>,
    pub table: TableId,
}

fn place_of<H: Hash32>(trees: &[TableTree<H>], table: TableId) -> Option<usize>
    ensures { result ≡ position (λ t. t.table == table) trees.now }
{
    trees.iter().position(|tree| tree.table == table)
}

/// Makes a tree for the table, behind the others, where it has none. After want of memory each table has
/// what it had.
pub(crate) fn open<H: Hash32>(
    hasher: H,
    trees: &mut Vec<TableTree<H>>,
    table: TableId,
) -> Result<(), Memory>
    ensures leaves { (id : ℕ) (leaves : List (List ℕ))
        → IsTree H.digest hasher (tree_of id trees.old.items) leaves
        → IsTree H.digest hasher (tree_of id trees.new.items) leaves }
    ensures others { (id : ℕ) (f : SpecFrontier H) → tree_of id trees.old.items ≡ Some f
        → tree_of id trees.new.items ≡ Some f }
    ensures tables { (more : List ℕ) × (tables_of trees.new.items ≡ tables_of trees.old.items ++ more) }
    ensures differ { Differ (tables_of trees.old.items) → Differ (tables_of trees.new.items) }
    ensures ok { OnOk result ((f : SpecFrontier H) × (tree_of table trees.new.items ≡ Some f)) }
{
    if place_of(trees, table).is_none() {
        let frontier = Frontier::new(hasher);
        trees.push(TableTree { frontier, table })?;
    }
    Ok(())
}

/// Adds a leaf to the tree of the table, which is to be open.
pub(crate) fn push_leaf<H: Hash32>(trees: &mut Vec<TableTree<H>>, table: TableId, leaf: &[u8])
    requires open { (f : SpecFrontier H) × (tree_of table trees.old.items ≡ Some f) × MayAddLeaf H.digest f }
    ensures here { (h : H) (leaves : List (List ℕ)) → IsTree H.digest h (tree_of table trees.old.items) leaves
        → IsTree H.digest h (tree_of table trees.new.items) (leaves ++ leaf.now ∷ []) }
    ensures others { (id : ℕ) → id ≢ table → tree_of id trees.new.items ≡ tree_of id trees.old.items }
    ensures open { (f : SpecFrontier H) × (tree_of table trees.new.items ≡ Some f) }
    ensures tables { tables_of trees.new.items ≡ tables_of trees.old.items }
{
    let place = place_of(trees, table).unwrap();
    trees[place].frontier.push_leaf(leaf);
}

/// A mark of each tree.
pub(crate) fn marks_of<H: Hash32>(
    alloc: Global,
    trees: &[TableTree<H>],
) -> Result<Vec<FrontierMark>, Memory>
    ensures placed { IfOk result (λ marks. length marks.items ≡ length trees.now) }
    ensures marks { IfOk result (λ marks. (h : H) (id : ℕ) (leaves : List (List ℕ))
        → IsTree H.digest h (tree_of id trees.now) leaves
        → IsMark (H.digest h) (mark_of id (tables_of trees.now) marks.items) leaves) }
{
    let mut marks = Vec::with_capacity(alloc, trees.len())?;
    for tree in trees {
        marks.push(tree.frontier.save())?;
    }
    Ok(marks)
}

fn mark_at(marks: &[FrontierMark], place: usize) -> Option<&FrontierMark>
    ensures { option_copied result ≡ slice_get marks.now place }
{
    marks.get(place)
}

// Takes a tree back to its mark, or to no leaves where it has none.
fn restore<H: Hash32>(hasher: H, tree: &mut Frontier<H>, mark: Option<&FrontierMark>)
    ensures { (leaves before : List (List ℕ)) → Holds H.digest hasher tree.old leaves
        → IsMark (H.digest hasher) (option_copied mark.entry) before → Holds H.digest hasher tree.new before }
{
    match mark {
        Some(mark) => tree.restore(mark),
        None => *tree = Frontier::new(hasher),
    }
}

/// Takes each tree back to its mark. Those that were opened behind the marked ones have no leaf then.
pub(crate) fn restore_all<H: Hash32>(
    hasher: H,
    trees: &mut Vec<TableTree<H>>,
    marks: &[FrontierMark],
)
    ensures leaves { (id : ℕ) (leaves before : List (List ℕ))
        → IsTree H.digest hasher (tree_of id trees.old.items) leaves
        → IsMark (H.digest hasher) (mark_of id (tables_of trees.old.items) marks.now) before
        → IsTree H.digest hasher (tree_of id trees.new.items) before }
    ensures tables { tables_of trees.new.items ≡ tables_of trees.old.items }
{
    for place in 0..trees.len() {
        restore(hasher, &mut trees[place].frontier, mark_at(marks, place));
    }
}
