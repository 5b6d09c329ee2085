//! What is left of the entries beside what groups of tables find: the numbers of their events over all
//! tables, and their roots for no table.

ghost use Rattle.std.specs.Prelude.{◌≡◌, IfOk, map, not};
ghost use Rattle.std.specs.List.{filter};
ghost use Rattle.std.specs.Ordering.{nat_cmp};
ghost use Rattle.law_catalog_rows.specs.Least.{least};
ghost use Rattle.audit_roots.specs.EventIds.{AreIds};
ghost use Rattle.audit_roots.specs.Groups as spec;
ghost use Rattle.audit_roots.specs.ImageTable.{table_of};
ghost use Rattle.audit_roots.specs.WrongRoots.{is_shown};

use crate::event_ids::{ids_of, put_numbers, sorted_ids};
use crate::groups::{Fault, is_shown};
use crate::numbers::are_numbered;
use crate::roots::{TableRoot, lesser};
use crate::shown::ImageTable;
use base_types::{Memory, TableId};
use sql_types::{EventId, TxEntry};
use std::alloc::Global;

/// The place, from 0, of the first entry whose events aren't numbered without a gap over all these tables, or
/// that has a root for none of them; and which of the two it is. None where no entry is so. Sorts the ids of their
/// starts and ends, and goes through the entries once, with two ordered searches for each. The only error is want of
/// memory.
pub fn left_over(
    alloc: Global,
    entries: &[TxEntry],
    tables: &[ImageTable],
) -> Result<Option<(u64, Fault)>, Memory>
    ensures { IfOk result (λ found. found ≡ spec.left_over (map table_of tables.now) entries.now) }
{
    let ids = sorted_ids(alloc, tables)?;
    first_left(alloc, entries, tables, ids.as_slice())
}

#[tactic(auto, unfolding(crate::specs::Groups::left_over))]
fn first_left(
    alloc: Global,
    entries: &[TxEntry],
    tables: &[ImageTable],
    ids: &[EventId],
) -> Result<Option<(u64, Fault)>, Memory>
    requires { AreIds (map table_of tables.now) ids.now }
    ensures { IfOk result (λ found. found ≡ spec.left_over (map table_of tables.now) entries.now) }
{
    let mut numbers = Vec::new(alloc);
    for (k, entry) in entries.iter().enumerate() {
        if let Some(fault) = left_of(entry, tables, ids, &mut numbers)? {
            return Ok(Some((k as u64, fault)));
        }
    }
    Ok(None)
}

/// What is left of an entry; the buffer has the numbers of its events then, whatever it had before.
fn left_of(
    entry: &TxEntry,
    tables: &[ImageTable],
    ids: &[EventId],
    numbers: &mut Vec<u64>,
) -> Result<Option<Fault>, Memory>
    requires { AreIds (map table_of tables.now) ids.now }
    ensures { IfOk result (λ fault. fault ≡ spec.left_of (map table_of tables.now) entry.now) }
{
    let own = ids_of(ids, entry.id);
    put_numbers(own, numbers)?;
    if !are_numbered(numbers) {
        return Ok(Some(Fault::Numbers));
    }
    match least_strange(tables, entry.roots.as_slice()) {
        Some(table) => Ok(Some(Fault::Root(table))),
        None => Ok(None),
    }
}

/// The least id of a root that is for none of these tables.
fn least_strange(tables: &[ImageTable], roots: &[TableRoot]) -> Option<TableId>
    ensures { result ≡ least nat_cmp
        (filter (λ id. not (is_shown tables.now id)) (map (λ r. r.0) roots.now)) }
{
    let mut best = None;
    for root in roots {
        if !is_shown(tables, root.0) {
            best = lesser(best, root.0);
        }
    }
    best
}
