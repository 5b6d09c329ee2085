//! Whether each entry has the roots of its transaction's events, which are numbered without a gap.

ghost use Rattle.std.specs.Prelude.{◌≡◌, ◌<◌, ◌≤◌, ◌+◌, ◌∷◌, ℕ, List, IfOk, OnOk, length, drop, map, filter, not};
ghost use Rattle.std.specs.List.Sorted.{IsNonDecreasingBy};
ghost use Rattle.std.specs.Ordering.{nat_cmp};
ghost use Rattle.format_image.specs.ImageBytes.{IsImage};
ghost use Rattle.base_merkle.specs.TreeHash.{tree_hash};
ghost use Rattle.format_event.specs.Leaf.{event_bytes};
ghost use Rattle.law_catalog_rows.specs.Least.{least, least_from, lesser};
ghost use Rattle.spec_verify.specs.Entries as spec;
ghost use Rattle.audit_roots.specs.Marks.{event_of, tx_of, number_of, leaf_hash};
ghost use Rattle.audit_roots.specs.Roots.{fault_of, first_fault, roots_in, run_in};
ghost use Rattle.audit_roots.specs.ImageTable.{AreImageTables};

use crate::hashes::leaf_hashes;
use crate::marks::{Mark, first_group, hashes_at, run_of, sorted_marks};
use crate::numbers::are_numbered;
use crate::shown::ImageTable;
use base_merkle::Hash32;
use base_types::{Hash, Memory, TableId};
use format_image::Image;
use format_roots::root_over_hashes;
use spec_verify::Place;
use sql_types::TxEntry;
use std::alloc::Global;

/// A table, and a root in it.
pub type TableRoot = (TableId, Hash);

/// The first entry whose events aren't numbered without a gap, or that has other roots than theirs; none where all
/// entries have what they should. The starts and ends of all versions are sorted once, and each leaf is hashed once,
/// four at a time. The only error is want of memory.
pub fn root_fault<H: Hash32>(
    alloc: Global,
    hasher: H,
    image: &Image,
    tables: &[ImageTable],
) -> Result<Option<Place>, Memory>
    requires image { IsImage image.now }
    requires tables { AreImageTables tables.now image.now }
    ensures { IfOk result (λ place. place ≡ spec.root_fault (H.digest hasher) image.now) }
{
    let marks = sorted_marks(alloc, tables)?;
    let hashes = leaf_hashes(alloc, hasher, &marks)?;
    first_fault(alloc, hasher, image.entries.as_slice(), &marks, &hashes)
}

fn first_fault<H: Hash32>(
    alloc: Global,
    hasher: H,
    entries: &[TxEntry],
    marks: &[Mark],
    hashes: &[Hash],
) -> Result<Option<Place>, Memory>
    requires rise { IsNonDecreasingBy tx_of marks.now }
    requires hashes { hashes.now ≡ map (leaf_hash (H.digest hasher)) marks.now }
    ensures { IfOk result (λ place. place ≡ first_fault (H.digest hasher) marks.now entries.now) }
{
    let mut work = ScratchSpace::new(alloc);
    for entry in entries {
        if let Some(place) = entry_fault(alloc, hasher, entry, marks, hashes, &mut work)? {
            return Ok(Some(place));
        }
    }
    Ok(None)
}

/// Room that is used for one entry after another.
#[derive(Drop)]
pub struct ScratchSpace {
    pub numbers: Vec<u64>,
    pub roots: Vec<TableRoot>,
}

impl ScratchSpace {
    pub fn new(alloc: Global) -> Self {
        ScratchSpace {
            numbers: Vec::new(alloc),
            roots: Vec::new(alloc),
        }
    }
}

fn entry_fault<H: Hash32>(
    alloc: Global,
    hasher: H,
    entry: &TxEntry,
    marks: &[Mark],
    hashes: &[Hash],
    work: &mut ScratchSpace,
) -> Result<Option<Place>, Memory>
    requires rise { IsNonDecreasingBy tx_of marks.now }
    requires hashes { hashes.now ≡ map (leaf_hash (H.digest hasher)) marks.now }
    ensures { IfOk result (λ place. place
        ≡ fault_of (H.digest hasher) (run_in entry.now.id marks.now) entry.now) }
{
    let (own, hashes) = run_of(marks, hashes, entry.id);
    put_numbers(own, &mut work.numbers)?;
    if !are_numbered(&mut work.numbers) {
        return Ok(Some(Place::Numbers { tx: entry.id }));
    }
    put_roots(alloc, hasher, own, hashes, &mut work.roots)?;
    match least_other(entry.roots.as_slice(), &work.roots) {
        Some(table) => Ok(Some(Place::Root {
            tx: entry.id,
            table,
        })),
        None => Ok(None),
    }
}

/// Their numbers, in place of those that were there.
fn put_numbers(marks: &[Mark], numbers: &mut Vec<u64>) -> Result<(), Memory>
    ensures { OnOk result (numbers.new.items ≡ map number_of marks.now) }
{
    numbers.clear();
    for mark in marks {
        numbers.push(mark.seq)?;
    }
    Ok(())
}

/// The root over the leaves of each table, of which the hashes are known, in place of those that were there.
pub(crate) fn put_roots<H: Hash32>(
    alloc: Global,
    hasher: H,
    marks: &[Mark],
    hashes: &[Hash],
    roots: &mut Vec<TableRoot>,
) -> Result<(), Memory>
    requires { hashes.now ≡ map (leaf_hash (H.digest hasher)) marks.now }
    ensures { OnOk result (roots.new.items ≡ roots_in (H.digest hasher) (map event_of marks.now)) }
{
    roots.clear();
    let mut at = 0;
    'groups: while at < marks.len() {
        let (table, own, own_hashes) = group_at(marks, hashes, at);
        let root = group_root(alloc, hasher, own, own_hashes)?;
        roots.push((table, root))?;
        at += own.len();
    }
    Ok(())
}

/// The table of the mark at this place, this mark with those behind it as far as they are of that table, and
/// their hashes.
fn group_at<'m, 'h, 'a>(
    marks: &'m [Mark<'a>],
    hashes: &'h [Hash],
    at: usize,
) -> (TableId, &'m [Mark<'a>], &'h [Hash])
    requires at { at < length marks.now }
    requires alike { length hashes.now ≡ length marks.now }
    ensures group { (h : List ℕ → List ℕ) → roots_in h (map event_of (drop at marks.now))
        ≡ (result.0, tree_hash h (map event_bytes (map event_of result.1.now)))
        ∷ roots_in h (map event_of (drop (at + length result.1.now) marks.now)) }
    ensures some { 0 < length result.1.now }
    ensures within { at + length result.1.now ≤ length marks.now }
    ensures hashes { (h : List ℕ → List ℕ) → hashes.now ≡ map (leaf_hash h) marks.now
        → result.2.now ≡ map (leaf_hash h) result.1.now }
{
    let table = marks[at].table;
    let (_, rest) = marks.split_at(at);
    let (own, _) = first_group(rest, table);
    (table, own, hashes_at(hashes, at, own.len()))
}

/// The root over the leaves of these starts and ends, of which the hashes are known.
fn group_root<H: Hash32>(
    alloc: Global,
    hasher: H,
    marks: &[Mark],
    hashes: &[Hash],
) -> Result<Hash, Memory>
    requires { hashes.now ≡ map (leaf_hash (H.digest hasher)) marks.now }
    ensures { IfOk result (λ root. root
        ≡ tree_hash (H.digest hasher) (map event_bytes (map event_of marks.now))) }
{
    let root = root_over_hashes(alloc, hasher, hashes)?;
    Ok(root)
}

/// The least table in which two lists have another root, or of which only one has one.
fn least_other(a: &[TableRoot], b: &[TableRoot]) -> Option<TableId>
    ensures { result ≡ least nat_cmp (spec.other_roots a.now b.now) }
{
    let best = least_among(a, b, a, None);
    least_among(a, b, b, best)
}

pub(crate) fn least_among(
    a: &[TableRoot],
    b: &[TableRoot],
    roots: &[TableRoot],
    best: Option<TableId>,
) -> Option<TableId>
    ensures { result ≡ least_from nat_cmp best
        (filter (λ t. not (spec.same_root (spec.root_at a.now t) (spec.root_at b.now t)))
        (map (λ r. r.0) roots.now)) }
{
    let mut best = best;
    for root in roots {
        if !same_root(root_at(a, root.0), root_at(b, root.0)) {
            best = lesser(best, root.0);
        }
    }
    best
}

pub(crate) fn lesser(best: Option<TableId>, table: TableId) -> Option<TableId>
    ensures { result ≡ lesser nat_cmp best table }
{
    match best {
        Some(known) if known <= table => Some(known),
        _ => Some(table),
    }
}

pub(crate) fn same_root(a: Option<Hash>, b: Option<Hash>) -> bool
    ensures { result ≡ spec.same_root a b }
{
    match (a, b) {
        (None, None) => true,
        (Some(a), Some(b)) => a == b,
        _ => false,
    }
}

pub(crate) fn root_at(roots: &[TableRoot], table: TableId) -> Option<Hash>
    ensures { result ≡ spec.root_at roots.now table }
{
    for root in roots {
        if root.0 == table {
            return Some(root.1);
        }
    }
    None
}
