//! Laws of the meaning of expressions.

ghost use Rattle.std.specs.Prelude.{◌≡◌, ◌↔◌, ◌⊎◌, ◌-◌, min, max, false, true, List, Ok, Err, None};
ghost use Rattle.sql_value.specs.declared.value.Value.{Value};
ghost use Rattle.sql_value.specs.declared.value.Value.TheVariants.{Null};
ghost use Rattle.sql_value.specs.declared.column.ColumnDef.{ColumnDef};
ghost use Rattle.sql_value.specs.declared.refusal.Refusal.{Refusal};
ghost use Rattle.sql_value.specs.declared.refusal.Refusal.TheVariants.{NoSuchColumn, TypeMismatch};
ghost use Rattle.sql_value.specs.declared.expr.Class.{Class};
ghost use Rattle.sql_value.specs.declared.expr.Op.{Op};
ghost use Rattle.sql_value.specs.declared.expr.Expr.{Expr};
ghost use Rattle.sql_types.specs.declared.outcome.Outcome.{Outcome};
ghost use Rattle.sql_types.specs.declared.outcome.Outcome.TheVariants as out;
ghost use Rattle.sql_value.specs.Tree.{Tree, tree, binary};
ghost use Rattle.spec_model.specs.Columns.{fits};
ghost use Rattle.spec_model.specs.Classes.{class, class_of, names_columns};
ghost use Rattle.spec_model.specs.Evaluation.{meaning, meaning_of};
ghost use Rattle.spec_model.specs.Operators.{IsComparison};
ghost use Rattle.spec_model.specs.Outcomes.{Answers};
ghost use Rattle.spec_model.specs.Truths.{Truth3, both, either, opposite, rank};

/// In a row that fits, an expression that has a class gives an outcome of this class or NumberOutOfRange: a truth of class
/// Truth, and else NULL or a value of the class, a number with the scale that the class names.
pub fn classes_foretell_outcomes()
    ensures { (columns : List ColumnDef) (row : List Value) (e : Expr) (c : Class) → class_of columns e ≡ Ok c
        → fits columns row ≡ true
        → Answers c (meaning_of columns row e) }
{}

/// An expression has no class exactly for one of two reasons: it names a column that isn't there, which is
/// NoSuchColumn, or its classes don't agree, which is TypeMismatch. One that has a class from the leaves up names only
/// columns that are there.
pub fn missing_columns_come_first()
    ensures missing { (columns : List ColumnDef) (e : Expr) → (class_of columns e ≡ Err NoSuchColumn)
        ↔ (names_columns columns (tree e) ≡ false) }
    ensures others { (columns : List ColumnDef) (e : Expr) (r : Refusal) → class_of columns e ≡ Err r
        → (r ≡ NoSuchColumn) ⊎ (r ≡ TypeMismatch) }
    ensures there { (columns : List ColumnDef) (t : Tree) (c : Class) → class columns t ≡ Ok c
        → names_columns columns t ≡ true }
{}

/// A comparison of NULL with an outcome is unknown, on either side.
pub fn comparison_with_null_is_unknown()
    ensures left { (columns : List ColumnDef) (row : List Value) (o : Op) (a b : Tree) (y : Outcome)
        → IsComparison o
        → meaning columns row a ≡ Ok (out.Value Null) → meaning columns row b ≡ Ok y
        → meaning columns row (binary o a b) ≡ Ok (out.Truth None) }
    ensures right { (columns : List ColumnDef) (row : List Value) (o : Op) (a b : Tree) (x : Outcome)
        → IsComparison o
        → meaning columns row a ≡ Ok x → meaning columns row b ≡ Ok (out.Value Null)
        → meaning columns row (binary o a b) ≡ Ok (out.Truth None) }
{}

/// Of two truths AND takes the less true one and OR the more true one, where false is less than unknown and
/// unknown less than true; NOT turns this order round. These are Kleene's tables.
pub fn truths_are_kleenes()
    ensures and { (s t : Truth3) → rank (both s t) ≡ min (rank s) (rank t) }
    ensures or { (s t : Truth3) → rank (either s t) ≡ max (rank s) (rank t) }
    ensures opposite { (t : Truth3) → rank (opposite t) ≡ 2 - rank t }
{}
