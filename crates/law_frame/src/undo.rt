//! Laws of undo: to drop a transaction's starts and ends from a number on is to go back to what stood there.

ghost use Rattle.std.specs.Prelude.{ℕ, ◌≡◌, true, false, List, take};
ghost use Rattle.std.specs.List.{AllByRecursion};
ghost use Rattle.sql_types.specs.declared.statement.Stmt.{Stmt};
ghost use Rattle.spec_model.specs.Catalog.{Tables};
ghost use Rattle.spec_model.specs.Effect.{effect};
ghost use Rattle.spec_model.specs.ChangeSets.{change_set, changed_from};
ghost use Rattle.spec_model.specs.Reach.{creates};
ghost use Rattle.spec_model.specs.Runs.{Sound};
ghost use Rattle.spec_model.specs.Script.{Reading, rolls_back_to, script};
ghost use Rattle.spec_model.specs.Undo.{undone};

/// Undo by number of a statement that doesn't create gives the tables before it: of the whole statement, and
/// of one that was refused after so many of its starts and ends.
pub fn undo_by_number_takes_a_statement_back()
    ensures whole { (T : Tables) (tx seq : ℕ) (stmt : Stmt) → Sound tx seq T → creates stmt ≡ false
        → undone tx seq (effect T tx seq stmt).tables ≡ T }
    ensures part { (T : Tables) (tx seq k : ℕ) (stmt : Stmt) → Sound tx seq T → creates stmt ≡ false
        → undone tx seq (changed_from tx seq (take k (change_set T stmt).changes) T) ≡ T }
{}

/// In a transaction that BEGIN opened, each savepoint's copy is what undo by its counter gives. So going back
/// by a name is undo by the counter after it, also where no savepoint has the name.
pub fn going_back_is_undo_by_number()
    ensures copies { (reads : Reading) (T : Tables) (tx : ℕ) (texts : List (List ℕ)) → Sound tx 0 T
        → AllByRecursion (λ c. undone tx c.seq (script reads true T tx texts).state.tables ≡ c.tables)
        (script reads true T tx texts).state.saved }
    ensures names { (reads : Reading) (T : Tables) (tx : ℕ) (texts : List (List ℕ)) (name : List ℕ)
        → Sound tx 0 T
        → (rolls_back_to (script reads true T tx texts).state name).0.tables
        ≡ undone tx (rolls_back_to (script reads true T tx texts).state name).0.seq
        (script reads true T tx texts).state.tables }
{}
