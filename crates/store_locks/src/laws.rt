//! Laws of the definitions that contracts of this crate cite.

ghost use Rattle.std.specs.Prelude.{◌≡◌, ◌↔◌, ℕ, List, true, false, length, take, Option, Some, None};
ghost use Rattle.std.specs.List.{All, Any};
ghost use Rattle.sql_types.specs.declared.lock.LockRequest.{LockRequest};
ghost use Rattle.sql_types.specs.declared.lock.Hold.{Hold};
ghost use Rattle.spec_model.specs.Holds.{holds_after};
ghost use Rattle.spec_model.specs.InTheWay.{Holder, barrier, bars, holder_of, precedes};

/// What is taken comes behind what is held, so going back to the number of locks before an `ask` undoes it.
pub fn back_undoes_an_ask()
    ensures { (holds : List Hold) (tx : ℕ) (requests : List LockRequest)
        → take (length holds) (holds_after holds tx requests) ≡ holds }
{}

/// The holder that is named bars the want, and no holder that does precedes it; none is named exactly where
/// none bars it.
pub fn least_holder_is_named()
    ensures named { (holds : List Hold) (tx : ℕ) (request : LockRequest) (a : Holder) → barrier holds tx request ≡ Some a
        → Any (λ h. (bars tx request h ≡ true) × (holder_of h ≡ a)) holds }
    ensures least { (holds : List Hold) (tx : ℕ) (request : LockRequest) (a : Holder) → barrier holds tx request ≡ Some a
        → All (λ h. bars tx request h ≡ true → precedes (holder_of h) a ≡ false) holds }
    ensures none { (holds : List Hold) (tx : ℕ) (request : LockRequest) → barrier holds tx request ≡ None
        → All (λ h. bars tx request h ≡ false) holds }
{}
