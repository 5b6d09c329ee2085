//! Searches by halving for the versions of a key, among those that stand in key order.

ghost use Rattle.std.specs.Prelude.{◌≡◌, ◌≤◌, [], length, slice_range};
ghost use Rattle.std.specs.List.{filter, list_any, prefix_len};
ghost use Rattle.spec_model.specs.Runs.{Rising};
ghost use Rattle.spec_model.specs.Keys.{key_at};
ghost use Rattle.store_table.specs.Orders as spec;
ghost use Rattle.store_table.specs.Orders.{in_order, passes, starts_of};

use crate::leading::{lead_of, lead_of_key};
use crate::reading::OrderRange;
use crate::searching::version_at;
use sql_parts::{compare_at, compare_to_key};
use sql_types::{EventId, Row, Version};
use sql_value::Value;
use store_order::Starts;

// Whether the key of the version of this start comes before this one.
#[tactic(auto, unfolding(spec_model::specs::Keys::key_at))]
fn is_below(places: &[usize], versions: &[Version], start: EventId, key: &[Value]) -> bool
    requires { Rising versions.now }
    ensures { result ≡ passes (spec.is_below places.now key.now) (spec.version_at start versions.now) }
{
    match version_at(versions, start) {
        Some(version) => compare_to_key(places, version, key).is_lt(),
        None => false,
    }
}

// Whether it doesn't come behind this one.
#[tactic(auto, unfolding(spec_model::specs::Keys::key_at))]
fn is_up_to(places: &[usize], versions: &[Version], start: EventId, key: &[Value]) -> bool
    requires { Rising versions.now }
    ensures { result ≡ passes (spec.is_up_to places.now key.now) (spec.version_at start versions.now) }
{
    match version_at(versions, start) {
        Some(version) => compare_to_key(places, version, key).is_le(),
        None => false,
    }
}

// How many versions come before this key in key order, which is that of these versions.
fn count_below(places: &[usize], versions: &[Version], order: &Starts, key: &[Value]) -> usize
    requires rising { Rising versions.now }
    requires order { order.now.list ≡ starts_of (in_order [] places.now versions.now) }
    ensures place { result
        ≡ prefix_len (spec.is_below places.now key.now) (in_order [] places.now versions.now) }
    ensures bound { result ≤ length order.now.list }
{
    let lead = lead_of_key(key);
    order.partition_point(lead, |start| is_below(places, versions, *start, key))
}

// How many don't come behind it.
fn count_up_to(places: &[usize], versions: &[Version], order: &Starts, key: &[Value]) -> usize
    requires rising { Rising versions.now }
    requires order { order.now.list ≡ starts_of (in_order [] places.now versions.now) }
    ensures place { result
        ≡ prefix_len (spec.is_up_to places.now key.now) (in_order [] places.now versions.now) }
    ensures bound { result ≤ length order.now.list }
{
    let lead = lead_of_key(key);
    order.partition_point(lead, |start| is_up_to(places, versions, *start, key))
}

/// Where the versions of a key stand in the key order of these versions.
pub(crate) fn key_range(
    places: &[usize],
    versions: &[Version],
    order: &Starts,
    key: &[Value],
) -> OrderRange
    requires rising { Rising versions.now }
    requires order { order.now.list ≡ starts_of (in_order [] places.now versions.now) }
    ensures { slice_range order.now.list result.first result.behind ≡ starts_of
        (filter (spec.is_of_key places.now key.now) (in_order [] places.now versions.now)) }
{
    let first = count_below(places, versions, order, key);
    let behind = count_up_to(places, versions, order, key);
    OrderRange { first, behind }
}

// Whether the key of the version of this start comes before that of the row.
#[tactic(auto, unfolding(spec_model::specs::Keys::key_at))]
fn is_below_row(places: &[usize], versions: &[Version], start: EventId, row: &Row) -> bool
    requires { Rising versions.now }
    ensures { result ≡ passes (spec.is_below places.now (key_at places.now row.now))
        (spec.version_at start versions.now) }
{
    match version_at(versions, start) {
        Some(version) => compare_at(places, version, row).is_lt(),
        None => false,
    }
}

// Whether the version of this start has the key of the row.
#[tactic(auto, unfolding(spec_model::specs::Keys::key_at))]
fn has_key_of(places: &[usize], versions: &[Version], start: EventId, row: &Row) -> bool
    requires { Rising versions.now }
    ensures { result ≡ passes (spec.is_of_key places.now (key_at places.now row.now))
        (spec.version_at start versions.now) }
{
    match version_at(versions, start) {
        Some(version) => compare_at(places, version, row).is_eq(),
        None => false,
    }
}

// How many versions come before the key of the row in key order.
fn count_below_row(places: &[usize], versions: &[Version], order: &Starts, row: &Row) -> usize
    requires rising { Rising versions.now }
    requires order { order.now.list ≡ starts_of (in_order [] places.now versions.now) }
    ensures place { result ≡ prefix_len (spec.is_below places.now (key_at places.now row.now))
        (in_order [] places.now versions.now) }
    ensures bound { result ≤ length order.now.list }
{
    let lead = lead_of(&[], places, row);
    order.partition_point(lead, |start| is_below_row(places, versions, *start, row))
}

/// Whether some version in key order has the key of the row.
pub(crate) fn key_exists(places: &[usize], versions: &[Version], order: &Starts, row: &Row) -> bool
    requires rising { Rising versions.now }
    requires order { order.now.list ≡ starts_of (in_order [] places.now versions.now) }
    ensures { result ≡ list_any (spec.is_of_key places.now (key_at places.now row.now))
        (in_order [] places.now versions.now) }
{
    let place = count_below_row(places, versions, order, row);
    match order.get(place) {
        Some(start) => has_key_of(places, versions, start, row),
        None => false,
    }
}
