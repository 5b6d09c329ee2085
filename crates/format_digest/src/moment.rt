//! Moments as digest files write them.

ghost use Rattle.std.specs.Prelude.{◌≤◌};
ghost use Rattle.base_types.specs.declared.moment.TheConstants.{MAX_TICKS};
ghost use Rattle.format_digest.specs.Moment.{IsMomentText};

use arrayvec::ArrayString;
use jiff_core::civil::DateTime;
use jiff_fmt::temporal::DateTimePrinter;

/// The text of a moment, in ticks of 100 ns since 1970-01-01T00:00:00: ISO 8601 with seven decimals and no
/// zone.
pub(crate) fn moment_text(ticks: u64) -> ArrayString<32>
    requires { ticks ≤ MAX_TICKS }
    ensures { IsMomentText ticks result.bytes }
{
    let moment = DateTime::from_nanosecond(i128::from(ticks) * 100).unwrap();
    DateTimePrinter::new()
        .precision(Some(7))
        .datetime_text(moment)
}
