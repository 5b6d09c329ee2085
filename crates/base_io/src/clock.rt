//! The moment, and a clock that stands still.

ghost use Rattle.std.specs.Prelude.{◌≡◌, ℕ};

/// A clock of ticks of 100 nanoseconds since 1970-01-01T00:00:00. Threads share it by reference.
pub trait Clock: Sync {
    /// Which numbers of ticks the clock may answer.
    ghost says: { Self → ℕ → Type 0 };

    /// The ticks so far.
    fn now(&self) -> u64
        ensures { says self.now result };
}

/// A clock that always answers the same moment, `at`.
#[derive(Clone, Copy, Debug, PartialEq, Eq)]
pub struct FixedClock {
    pub at: u64,
}

impl Clock for FixedClock {
    ghost says = { λ c at. at ≡ c.at };

    fn now(&self) -> u64 {
        self.at
    }
}
