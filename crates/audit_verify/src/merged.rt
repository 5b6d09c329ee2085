//! How what two groups of tables find merges.

ghost use Rattle.std.specs.Prelude.{◌≡◌};
ghost use Rattle.std.specs.Ordering.{nat_cmp};
ghost use Rattle.spec_model.specs.Lists.{or_else};
ghost use Rattle.law_catalog_rows.specs.Least.{lesser_of};
ghost use Rattle.spec_verify.specs.Entries.{table_event_cmp};
ghost use Rattle.spec_verify.specs.Groups.{found_cmp};
ghost use Rattle.audit_verify.specs.Groups as spec;

use crate::groups::GroupFaults;
use crate::least::{TableEvent, event_place, lesser};
use audit_roots::lesser_root;
use spec_verify::Place;
use sql_types::EventId;

/// What two groups find together, of which the first has the tables that come first.
pub(crate) fn both(first: GroupFaults, second: GroupFaults) -> GroupFaults
    ensures root { result.root ≡ lesser_of (found_cmp nat_cmp) first.root second.root }
    ensures version { result.version ≡ spec.lesser_version first.version second.version }
    ensures index { result.index ≡ spec.if_none result.version (or_else first.index second.index) }
{
    let version = lesser_version(first.version, second.version);
    let index = match version {
        Some(_) => None,
        None => first_of_two(first.index, second.index),
    };
    GroupFaults {
        root: lesser_root(first.root, second.root),
        version,
        index,
    }
}

/// The first of two places, where there is one.
pub(crate) fn first_of_two(first: Option<Place>, second: Option<Place>) -> Option<Place>
    ensures { result ≡ or_else first second }
{
    match first {
        Some(place) => Some(place),
        None => second,
    }
}

fn lesser_version(a: Option<Place>, b: Option<Place>) -> Option<Place>
    ensures { result ≡ spec.lesser_version a b }
{
    event_place(lesser_event(event_at(a), event_at(b)))
}

/// The event that a place names, if it names one.
fn event_at(place: Option<Place>) -> Option<TableEvent>
    ensures { result ≡ spec.event_at place }
{
    match place {
        Some(Place::Event { table, tx, seq }) => Some((table, EventId { tx, seq })),
        _ => None,
    }
}

fn lesser_event(a: Option<TableEvent>, b: Option<TableEvent>) -> Option<TableEvent>
    ensures { result ≡ lesser_of table_event_cmp a b }
{
    match b {
        Some(event) => lesser(a, event),
        None => a,
    }
}
