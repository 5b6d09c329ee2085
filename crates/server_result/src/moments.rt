//! The moments of statements.

ghost use Rattle.std.specs.Prelude.{◌≡◌, true};
ghost use Rattle.base_types.specs.Moment.{is_moment};
ghost use Rattle.server_result.specs.Moments.{IsMoment, said_with};

use base_io::Clock;
use base_types::MAX_TICKS;

/// What is given, or else what the clock says.
fn said<C: Clock>(given: Option<u64>, clock: &C) -> u64
    ensures { said_with given (C.says clock.now) result }
{
    match given {
        Some(ticks) => ticks,
        None => clock.now(),
    }
}

/// The moment that is given, or else the one that the clock says, at most the greatest one.
pub fn moment<C: Clock>(given: Option<u64>, clock: &C) -> u64
    ensures said { IsMoment (said_with given (C.says clock.now)) result }
    ensures within { is_moment result ≡ true }
{
    said(given, clock).min(MAX_TICKS)
}
