//! The calls of a fake that are to fail.

ghost use Rattle.std.specs.Prelude.{◌≡◌, ◌≤◌, ◌↔◌, IsTrue, Contains};
ghost use Rattle.base_io.specs.Count.{Rises, counted};
ghost use Rattle.base_io.specs.FaultSchedule.{no_calls_yet, called, failed_once};

use std::marker::Model;

/// Which calls are to fail, counted from 1, how many were made, and how many have failed.
#[derive(Drop)]
pub struct FaultInjector {
    fails: Vec<u64>,
    calls: u64,
    failed: u64,
}

impl Model for FaultInjector {
    ghost use Rattle.base_io.specs.FaultSchedule.{FaultSchedule};

    ghost Value = { FaultSchedule };

    ghost view = { λ p. record { fails = p.fails.items; calls = p.calls; failed = p.failed } };
}

impl FaultInjector {
    /// No call was made so far.
    pub fn new(fails: Vec<u64>) -> FaultInjector
        ensures { result ≡ no_calls_yet fails.items }
    {
        FaultInjector {
            fails,
            calls: 0,
            failed: 0,
        }
    }

    /// Counts a call, and says whether it is to fail.
    pub fn is_next_failing(&mut self) -> bool
        ensures answer { IsTrue result ↔ Contains self.old.fails (counted self.old.calls) }
        ensures counts { self.new ≡ called self.old }
    {
        self.calls = self.calls.saturating_add(1);
        self.fails.contains(&self.calls)
    }

    /// Counts a failure of the call that was counted last.
    pub fn note_failure(&mut self)
        ensures counts { self.new ≡ failed_once self.old }
        ensures later { self.old.failed ≤ self.new.failed }
        ensures rises { Rises self.old.failed self.new.failed }
    {
        self.failed = self.failed.saturating_add(1);
    }
}
