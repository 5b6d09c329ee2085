//! How what is left of the entries, and what groups of tables find of their roots, merge.

ghost use Rattle.std.specs.Prelude.{◌≡◌, Some};
ghost use Rattle.std.specs.Ordering.{nat_cmp};
ghost use Rattle.spec_model.specs.Lists.{or_else};
ghost use Rattle.law_catalog_rows.specs.Least.{lesser_of};
ghost use Rattle.spec_verify.specs.Groups.{found_cmp};
ghost use Rattle.audit_roots.specs.Groups as spec;

use crate::groups::Fault;
use base_types::{TableId, TxId};
use spec_verify::Place;
use sql_types::TxEntry;
use std::cmp::Ordering;

/// The first of two entries, where there is one.
pub(crate) fn first_root(
    first: Option<(u64, TableId)>,
    second: Option<(u64, TableId)>,
) -> Option<(u64, TableId)>
    ensures { result ≡ or_else first second }
{
    match first {
        Some(found) => Some(found),
        None => second,
    }
}

/// What two groups find of roots together: the lesser of what each finds, by the place of the entry and then by the
/// table. Of two that are equal either.
pub fn lesser_root(a: Option<(u64, TableId)>, b: Option<(u64, TableId)>) -> Option<(u64, TableId)>
    ensures { result ≡ lesser_of (found_cmp nat_cmp) a b }
{
    match (a, b) {
        (Some(x), Some(y)) if x.cmp(&y) == Ordering::Greater => Some(y),
        (Some(x), _) => Some(x),
        (None, b) => b,
    }
}

/// The place of the verdict on roots: that of the lesser of what is left and of what all groups find, none where
/// neither finds anything. An entry is at its place, from 0, of `entries`.
pub fn root_place(
    entries: &[TxEntry],
    left: Option<(u64, Fault)>,
    root: Option<(u64, TableId)>,
) -> Option<Place>
    ensures { result ≡ spec.fault_place entries.now (spec.merged left root) }
{
    fault_place(entries, merged(left, root))
}

fn merged(left: Option<(u64, Fault)>, root: Option<(u64, TableId)>) -> Option<(u64, Fault)>
    ensures { result ≡ spec.merged left root }
{
    match (left, root) {
        (Some(x), Some((k, table))) => Some(lesser_fault(x, (k, Fault::Root(table)))),
        (None, Some((k, table))) => Some((k, Fault::Root(table))),
        (left, None) => left,
    }
}

fn lesser_fault(a: (u64, Fault), b: (u64, Fault)) -> (u64, Fault)
    ensures { Some result ≡ lesser_of (found_cmp spec.fault_cmp) (Some a) (Some b) }
{
    match a.0.cmp(&b.0).then(compare_faults(a.1, b.1)) {
        Ordering::Greater => b,
        _ => a,
    }
}

/// The numbers come before the roots, and these are by table.
fn compare_faults(a: Fault, b: Fault) -> Ordering
    ensures { result ≡ spec.fault_cmp a b }
{
    match (a, b) {
        (Fault::Numbers, Fault::Numbers) => Ordering::Equal,
        (Fault::Numbers, Fault::Root(_)) => Ordering::Less,
        (Fault::Root(_), Fault::Numbers) => Ordering::Greater,
        (Fault::Root(a), Fault::Root(b)) => a.cmp(&b),
    }
}

fn fault_place(entries: &[TxEntry], found: Option<(u64, Fault)>) -> Option<Place>
    ensures { result ≡ spec.fault_place entries.now found }
{
    match found {
        None => None,
        Some((k, Fault::Numbers)) => Some(Place::Numbers {
            tx: id_at(entries, k),
        }),
        Some((k, Fault::Root(table))) => Some(Place::Root {
            tx: id_at(entries, k),
            table,
        }),
    }
}

/// The id of the entry at this place; 0 where there is none.
fn id_at(entries: &[TxEntry], k: u64) -> TxId
    ensures { result ≡ spec.id_at entries.now k }
{
    match entries.get(k as usize) {
        Some(entry) => entry.id,
        None => 0,
    }
}
