//! Laws of `sorted`, the word in which definitions put rows in order.

ghost use Rattle.std.specs.Prelude.{◌≡◌, List, IsPermutation, IsSorted};
ghost use Rattle.std.specs.List.Sorted.{IsStable};
ghost use Rattle.std.specs.Cmp.{IsTotalOrder};
ghost use Rattle.std.specs.declared.cmp.Ordering.{Ordering};
ghost use Rattle.spec_model.specs.Lists.{sorted};

/// Sorted by a total order, a list rises, elements that are equal keep their order, and they are the same
/// elements. It is the one list that rises and keeps this order.
pub fn sorted_lists_rise_stably<T>()
    ensures rises { (cmp : T → T → Ordering) (xs : List T) → IsTotalOrder cmp → IsSorted cmp (sorted cmp xs) }
    ensures stable { (cmp : T → T → Ordering) (xs : List T) → IsTotalOrder cmp
        → IsStable cmp xs (sorted cmp xs) }
    ensures same { (cmp : T → T → Ordering) (xs : List T) → IsTotalOrder cmp
        → IsPermutation xs (sorted cmp xs) }
    ensures only { (cmp : T → T → Ordering) (xs ys : List T) → IsTotalOrder cmp
        → IsSorted cmp ys → IsStable cmp xs ys → ys ≡ sorted cmp xs }
{}
