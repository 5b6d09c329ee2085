//! Laws of what is found first and least: groups of elements may be gone through apart.

ghost use Rattle.std.specs.Prelude.{ℕ, ◌≡◌, ◌++◌, List, Option};
ghost use Rattle.std.specs.Cmp.{IsTotalOrder};
ghost use Rattle.std.specs.declared.cmp.Ordering.{Ordering};
ghost use Rattle.law_catalog_rows.specs.Least.{least, lesser_of};
ghost use Rattle.spec_verify.specs.Groups.{first_found, found_cmp};

/// By a total order, the least of two groups is the lesser of their leasts.
pub fn leasts_of_groups_merge<T>()
    ensures { (cmp : T → T → Ordering) (xs ys : List T) → IsTotalOrder cmp
        → least cmp (xs ++ ys) ≡ lesser_of cmp (least cmp xs) (least cmp ys) }
{}

/// Where two groups look at the same elements, and at each the lesser of what they find counts, what is found
/// first is the lesser of what each finds first, by the place of the element and then by what is found.
pub fn firsts_of_groups_merge<E, T>()
    ensures { (cmp : T → T → Ordering) (f g : ℕ → E → Option T) (elements : List E)
        → first_found (λ k e. lesser_of cmp (f k e) (g k e)) elements
        ≡ lesser_of (found_cmp cmp) (first_found f elements) (first_found g elements) }
{}
