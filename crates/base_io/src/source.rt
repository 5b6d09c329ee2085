//! What is read from the outside.

ghost use Rattle.std.specs.Prelude.{◌≡◌, ◌<◌, ◌≤◌, ◌∷◌, [], ℕ, List, Option, Result, length, IfOk, OnOk, OnErr};
ghost use Rattle.base_io.specs.declared.failed.Failed.{Failed};
ghost use Rattle.base_io.specs.History.{Adds};
ghost use Rattle.base_io.specs.Outside.{TellsRead};
ghost use Rattle.base_io.specs.Count.{Rises};

use crate::Failed;

/// An input that is read piece by piece.
pub trait Source {
    /// The bytes that are left, where the source tells them. One that tells them goes on telling.
    ghost left: { Self → Option (List ℕ) };

    /// What its calls so far may have answered, in their order.
    ghost history: { Self → List (Result ℕ Failed) → Type 0 };

    /// How often the source has failed. At the end of its type the count stands still.
    ghost faults: { Self → ℕ };

    /// Moves some first bytes of what is left into the buffer and answers their number, which is 0 only at
    /// the end of the input. A read that fails moves nothing, and one that doesn't fail counts no fault.
    fn read(&mut self, buf: &mut [u8]) -> Result<usize, Failed>
        requires { 0 < length buf.old }
        ensures within { IfOk result (λ n. n ≤ length buf.new) }
        ensures bytes { IfOk result (TellsRead (left self.old) (left self.new) buf.new) }
        ensures kept { OnErr result (left self.new ≡ left self.old) }
        ensures answered { Adds (history self.old) (history self.new) (result ∷ []) }
        ensures later { faults self.old ≤ faults self.new }
        ensures calm { OnOk result (faults self.new ≡ faults self.old) }
        ensures cause { OnErr result (Rises (faults self.old) (faults self.new)) };
}
