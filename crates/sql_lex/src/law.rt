//! The longest token at the front of some bytes, in plain words.

ghost use Rattle.std.specs.Prelude.{◌≡◌, ◌≤◌, ◌<◌, ℕ, List, length, take, Some, None};
ghost use Rattle.sql_lex.specs.declared.token.Kind.{Kind};
ghost use Rattle.sql_lex.specs.IsToken.{kind_of};
ghost use Rattle.sql_lex.specs.Longest.{longest};

/// The longest token that some bytes begin with is a token of its kind. Neither do they begin with a longer
/// one of any kind, nor with one at all where there is no longest one.
pub fn longest_law()
    ensures found { (z : List ℕ) (k : Kind) (n : ℕ) → longest z ≡ Some (k, n)
        → (1 ≤ n) × (n ≤ length z) × (kind_of (take n z) ≡ Some k) }
    ensures no_longer { (z : List ℕ) (k : Kind) (n m : ℕ) → longest z ≡ Some (k, n)
        → n < m → m ≤ length z → kind_of (take m z) ≡ None }
    ensures none { (z : List ℕ) (m : ℕ) → longest z ≡ None → m ≤ length z → kind_of (take m z) ≡ None }
{}
