//! Where a version stands among those of a table, sought outward from a guess.

ghost use Rattle.std.specs.Prelude.{◌≡◌, ◌≤◌, ◌<◌, length};
ghost use Rattle.spec_model.specs.Runs.{Rising};
ghost use Rattle.sql_apply.specs.Places.{place, starts_before};

use sql_types::{EventId, Version};

/// About where the event's version stands: as far between the first version and the last one as its
/// transaction is between theirs.
pub(crate) fn guess_place(versions: &[Version], at: EventId) -> usize
    requires { 0 < length versions.now }
    ensures { result < length versions.now }
{
    let last = versions.len() - 1;
    let lowest = versions[0].start;
    let highest = versions[last].start;
    let whole = highest.tx.saturating_sub(lowest.tx);
    let part = at.tx.saturating_sub(lowest.tx);
    let guess = part.saturating_mul(last as u64).checked_div(whole);
    (guess.unwrap_or(0) as usize).min(last)
}

pub(crate) fn starts_before(version: &Version, at: EventId) -> bool
    ensures { result ≡ starts_before at version.now }
{
    version.start < at
}

/// The place, which is this one or further up, by steps that double and then by halving.
pub(crate) fn place_above(versions: &[Version], at: EventId, from: usize) -> usize
    requires rising { Rising versions.now }
    requires from { from ≤ place at versions.now }
    ensures { result ≡ place at versions.now }
{
    let mut low = from;
    let mut high = from;
    let mut step: usize = 1;
    while high < versions.len() && starts_before(&versions[high], at) {
        low = high + 1;
        high = low + step.min(versions.len() - low);
        step = step.saturating_mul(2);
    }
    place_between(versions, at, low, high)
}

/// The place, which is this one or further down, by steps that double and then by halving.
pub(crate) fn place_below(versions: &[Version], at: EventId, from: usize) -> usize
    requires rising { Rising versions.now }
    requires from { place at versions.now ≤ from }
    requires within { from ≤ length versions.now }
    ensures { result ≡ place at versions.now }
{
    let mut low = from;
    let mut high = from;
    let mut step: usize = 1;
    while low > 0 && !starts_before(&versions[low - 1], at) {
        high = low - 1;
        low = high.saturating_sub(step);
        step = step.saturating_mul(2);
    }
    place_between(versions, at, low, high)
}

// The place, which lies between these, by halving.
fn place_between(versions: &[Version], at: EventId, low: usize, high: usize) -> usize
    requires rising { Rising versions.now }
    requires low { low ≤ place at versions.now }
    requires high { place at versions.now ≤ high }
    requires within { high ≤ length versions.now }
    ensures { result ≡ place at versions.now }
{
    low + versions[low..high].partition_point(|version| starts_before(version, at))
}
