//! Searches: for a version by its start, and for places in the order of an index.

ghost use Rattle.std.specs.Prelude.{◌≡◌, ◌≤◌, ◌<◌, true, false, nat_le, IfNone, IfSome, length};
ghost use Rattle.std.specs.List.{AllByRecursion, HoldsAt};
ghost use Rattle.std.specs.Option.{option_copied};
ghost use Rattle.spec_model.specs.Runs.{Rising};
ghost use Rattle.spec_model.specs.Undo as undo;
ghost use Rattle.spec_model.specs.Rows.{event_cmp};
ghost use Rattle.sql_apply.specs.Places.{place};
ghost use Rattle.store_table.specs.Orders as spec;
ghost use Rattle.store_table.specs.Orders.{in_order, passes, starts_of};

use crate::comparing::{comes_before, has_row_below};
use crate::guessing::{guess_place, place_above, place_below};
use crate::leading::lead_of;
use base_types::TxId;
use sql_types::{EventId, Version};
use std::cmp::Ordering;
use store_order::Starts;

/// Where the version stands that the event started, or would stand, among versions by rising start. By a
/// guess and halving.
pub(crate) fn place_of_start(versions: &[Version], at: EventId) -> usize
    requires { Rising versions.now }
    ensures value { result ≡ place at versions.now }
    ensures bound { result ≤ length versions.now }
{
    if versions.is_empty() {
        return 0;
    }
    let guess = guess_place(versions, at);
    match compare_start(&versions[guess], at) {
        Ordering::Less => place_above(versions, at, guess + 1),
        Ordering::Equal => guess,
        Ordering::Greater => place_below(versions, at, guess),
    }
}

fn compare_start(version: &Version, at: EventId) -> Ordering
    ensures { result ≡ event_cmp version.now.start at }
{
    version.start.cmp(&at)
}

/// The version that the event started.
pub(crate) fn version_at(versions: &[Version], start: EventId) -> Option<&Version>
    requires { Rising versions.now }
    ensures { option_copied result ≡ spec.version_at start versions.now }
{
    let place = place_of_start(versions, start);
    if place < versions.len() && versions[place].start == start {
        Some(&versions[place])
    } else {
        None
    }
}

// Whether the version of this start comes before another one in the order of an index.
fn start_comes_before(
    ordinals: &[u16],
    key: &[usize],
    versions: &[Version],
    start: EventId,
    version: &Version,
) -> bool
    requires { Rising versions.now }
    ensures { result ≡ passes (spec.comes_before ordinals.now key.now version.now)
        (spec.version_at start versions.now) }
{
    match version_at(versions, start) {
        Some(other) => comes_before(ordinals, key, other, version),
        None => false,
    }
}

/// Whether the row of the version of this start comes before that of another one in an index.
pub(crate) fn start_has_row_below(
    ordinals: &[u16],
    key: &[usize],
    versions: &[Version],
    start: EventId,
    version: &Version,
) -> bool
    requires { Rising versions.now }
    ensures { result ≡ passes (spec.has_row_below ordinals.now key.now version.now)
        (spec.version_at start versions.now) }
{
    match version_at(versions, start) {
        Some(other) => has_row_below(ordinals, key, other, version),
        None => false,
    }
}

/// Where the version stands in the order of an index, or would stand. The index is of these versions.
pub(crate) fn place_in_order(
    ordinals: &[u16],
    key: &[usize],
    versions: &[Version],
    order: &Starts,
    version: &Version,
) -> usize
    requires rising { Rising versions.now }
    requires order { order.now.list ≡ starts_of (in_order ordinals.now key.now versions.now) }
    ensures place { result ≡ spec.place_of ordinals.now key.now version.now versions.now }
    ensures bound { result ≤ length order.now.list }
{
    let lead = lead_of(ordinals, key, version);
    order.partition_point(
        lead,
        |start| start_comes_before(ordinals, key, versions, *start, version),
    )
}

/// Whether an event is one of the transaction, with this number or above.
pub(crate) fn is_undone(event: EventId, tx: TxId, seq: u64) -> bool
    ensures { result ≡ undo.is_undone tx seq event }
{
    event.tx == tx && seq <= event.seq
}

fn is_up_to(version: &Version, tx: TxId) -> bool
    ensures { result ≡ nat_le version.now.start.0 tx }
{
    version.start.tx <= tx
}

/// Where the last version stands that the transaction started, where its number is `seq` or above.
pub(crate) fn last_start(versions: &[Version], tx: TxId, seq: u64) -> Option<usize>
    requires { Rising versions.now }
    ensures some { IfSome result (λ place. (place < length versions.now)
        × HoldsAt (λ v. undo.is_undone tx seq v.start ≡ true) versions.now place) }
    ensures none { IfNone result
        (AllByRecursion (λ v. undo.is_undone tx seq v.start ≡ false) versions.now) }
{
    let behind = versions.partition_point(|version| is_up_to(version, tx));
    if behind > 0 && is_undone(versions[behind - 1].start, tx, seq) {
        Some(behind - 1)
    } else {
        None
    }
}
