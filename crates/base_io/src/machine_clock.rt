//! The machine's clock.

ghost use Rattle.std.specs.Prelude.{⊤, ◌≡◌, ◌/◌, ◌-◌, ◌^◌, min};

use crate::Clock;
use std::time::SystemTime;

/// The machine's clock. It may say any moment, and says 0 where it can't be read or stands before 1970.
#[derive(Drop)]
pub struct MachineClock<R: std::rt::Clock + Drop + Sync> {
    rt: R,
}

impl<R: std::rt::Clock + Drop + Sync> MachineClock<R> {
    pub fn new(rt: R) -> MachineClock<R> {
        MachineClock { rt }
    }
}

impl<R: std::rt::Clock + Drop + Sync> Clock for MachineClock<R> {
    ghost says = { λ c at. ⊤ };

    fn now(&self) -> u64 {
        match SystemTime::now(&self.rt) {
            Ok(time) => match time.duration_since(SystemTime::UNIX_EPOCH) {
                Ok(since) => ticks(since.as_nanos()),
                Err(_) => 0,
            },
            Err(_) => 0,
        }
    }
}

// Ticks of 100 nanoseconds, at most as many as fit.
fn ticks(nanos: u128) -> u64
    ensures { result ≡ min (nanos / 100) (2 ^ 64 - 1) }
{
    u64::try_from(nanos / 100).unwrap_or(u64::MAX)
}
