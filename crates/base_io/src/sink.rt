//! What is written to the outside.

ghost use Rattle.std.specs.Prelude.{◌≡◌, ◌<◌, ◌≤◌, ◌∷◌, [], ℕ, List, Option, Result, length, take, IfOk, OnOk, OnErr};
ghost use Rattle.base_io.specs.declared.failed.Failed.{Failed};
ghost use Rattle.base_io.specs.History.{Adds};
ghost use Rattle.base_io.specs.Outside.{TellsTaken};
ghost use Rattle.base_io.specs.Count.{Rises};

use crate::Failed;

/// An output that is written piece by piece.
pub trait Sink {
    /// The bytes that it took, where the sink tells them. One that tells them goes on telling.
    ghost taken: { Self → Option (List ℕ) };

    /// What its calls so far may have answered, in their order.
    ghost history: { Self → List (Result ℕ Failed) → Type 0 };

    /// How often the sink has failed. At the end of its type the count stands still.
    ghost faults: { Self → ℕ };

    /// How often the sink took nothing of a piece that has bytes. At the end of its type the count stands
    /// still.
    ghost stalls: { Self → ℕ };

    /// Takes some first bytes of the piece and answers their number. A write that fails takes nothing and
    /// counts no stall, and one that takes something counts neither a fault nor a stall.
    fn write(&mut self, bytes: &[u8]) -> Result<usize, Failed>
        ensures within { IfOk result (λ n. n ≤ length bytes.now) }
        ensures taken { IfOk result (λ n. TellsTaken (taken self.old) (taken self.new) (take n bytes.now)) }
        ensures kept { OnErr result (taken self.new ≡ taken self.old) }
        ensures answered { Adds (history self.old) (history self.new) (result ∷ []) }
        ensures later { faults self.old ≤ faults self.new }
        ensures calm { OnOk result (faults self.new ≡ faults self.old) }
        ensures stalls_later { stalls self.old ≤ stalls self.new }
        ensures flowing { IfOk result (λ n. 0 < n → stalls self.new ≡ stalls self.old) }
        ensures failing { OnErr result (stalls self.new ≡ stalls self.old) }
        ensures cause { OnErr result (Rises (faults self.old) (faults self.new)) }
        ensures stalled { IfOk result
            (λ n. n ≡ 0 → 0 < length bytes.now → Rises (stalls self.old) (stalls self.new)) };
}
