//! The law of the trees of expressions.

ghost use Rattle.std.specs.Prelude.{◌≡◌, ℕ, Bool, List};
ghost use Rattle.sql_value.specs.declared.value.Value.{Value};
ghost use Rattle.sql_value.specs.declared.expr.Op.{Op};
ghost use Rattle.sql_value.specs.declared.expr.Expr.{Expr};
ghost use Rattle.sql_value.specs.declared.expr.Expr.TheVariants.{Lit, Col, Neg, Not, IsNull, Bin};
ghost use Rattle.sql_value.specs.Tree as trees;
ghost use Rattle.sql_value.specs.Tree.{tree};

/// The trees of expressions, one equation for each kind; expressions of one tree are one expression.
pub fn expressions_are_trees()
    ensures literal { (v : Value) → tree (Lit v) ≡ trees.literal v }
    ensures column { (name : List ℕ) → tree (Col name) ≡ trees.column name }
    ensures minus { (a : Expr) → tree (Neg a) ≡ trees.minus (tree a) }
    ensures inverse { (a : Expr) → tree (Not a) ≡ trees.not (tree a) }
    ensures null_test { (a : Expr) (negated : Bool)
        → tree (IsNull a negated) ≡ trees.is_null (tree a) negated }
    ensures binary { (op : Op) (a b : Expr) → tree (Bin op a b) ≡ trees.binary op (tree a) (tree b) }
    ensures same { (a b : Expr) → tree a ≡ tree b → a ≡ b }
{}
