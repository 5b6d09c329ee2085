//! The roots in groups of the tables of an image, which may be gone through apart, and how what they find merges.

ghost use Rattle.std.specs.Prelude.{All, ℕ, ◌≡◌, ◌≤◌, ◌+◌, ◌++◌, ◌&&◌, List, IfOk, length, map, not, take, drop};
ghost use Rattle.std.specs.List.{filter};
ghost use Rattle.std.specs.List.Sorted.{IsNonDecreasingBy};
ghost use Rattle.std.specs.Ordering.{nat_cmp};
ghost use Rattle.sql_types.specs.declared.entry.TxEntry.{TxEntry as LedgerEntry};
ghost use Rattle.sql_types.specs.declared.image.Image.{Image as ImageOf};
ghost use Rattle.format_image.specs.ImageBytes.{IsImage};
ghost use Rattle.format_image.specs.Tables.{tables_in};
ghost use Rattle.spec_model.specs.Catalog.{Tables};
ghost use Rattle.law_catalog_rows.specs.Least.{least, lesser_of};
ghost use Rattle.spec_verify.specs.Entries.{root_at, root_fault, same_root};
ghost use Rattle.spec_verify.specs.Groups.{found_cmp};
ghost use Rattle.audit_roots.specs.Groups as spec;
ghost use Rattle.audit_roots.specs.ImageTable.{IdsRise, table_of};
ghost use Rattle.audit_roots.specs.Marks.{HaveEncodableValues, leaf_hash, tx_of};
ghost use Rattle.audit_roots.specs.WrongRoots as told;

use crate::hashes::leaf_hashes;
use crate::marks::{Mark, run_of, sorted_marks};
use crate::roots::{ScratchSpace, TableRoot, least_among, lesser, put_roots, root_at, same_root};
use crate::shown::{ImageTable, shown_tables};
use base_merkle::Hash32;
use base_types::{Hash, Memory, TableId};
use format_image::Image;
use sql_system::first_tables;
use sql_types::TxEntry;
use std::alloc::Global;

/// What may fail of an entry: the numbers of its events, or its root in a table.
#[derive(Clone, Copy, Debug, PartialEq, Eq)]
pub enum Fault {
    Numbers,
    Root(TableId),
}

/// What fails of the roots in so many tables of the image, from the one at place `from` on: the place, from 0, of
/// the first entry that has another root in one of these tables than its events there, or a root without events, or
/// events without a root; and the least of those tables. None where no entry has. What groups find merges by the
/// laws below. Sorts the starts and ends of the versions of these tables, and hashes each leaf once, four at a time.
/// The only error is want of memory.
pub fn wrong_root_in_group<H: Hash32>(
    alloc: Global,
    hasher: H,
    image: &Image,
    from: usize,
    count: usize,
) -> Result<Option<(u64, TableId)>, Memory>
    requires image { IsImage image.now }
    requires within { from + count ≤ length image.now.tables }
    ensures { IfOk result (λ root. root
        ≡ spec.wrong_root (H.digest hasher) (spec.group_of from count image.now) image.now.entries) }
{
    let system = first_tables(alloc)?;
    let tables = shown_tables(alloc, &system, image)?;
    let group = group_of(&tables, from, count);
    root_in_group(alloc, hasher, image.entries.as_slice(), group)
}

/// So many of these tables, from the one at place `from` on. Takes the same time for any number of them.
pub fn group_of<'s, 'a>(
    tables: &'s [ImageTable<'a>],
    from: usize,
    count: usize,
) -> &'s [ImageTable<'a>]
    requires { from + count ≤ length tables.now }
    ensures { result.now ≡ take count (drop from tables.now) }
{
    let (_, rest) = tables.split_at(from);
    let (group, _) = rest.split_at(count);
    group
}

/// The first entry that is wrong in one of these tables, and the least of them.
fn root_in_group<H: Hash32>(
    alloc: Global,
    hasher: H,
    entries: &[TxEntry],
    tables: &[ImageTable],
) -> Result<Option<(u64, TableId)>, Memory>
    requires spelled { All HaveEncodableValues tables.now }
    requires rise { IdsRise 0 (map table_of tables.now) }
    ensures { IfOk result (λ found. found
        ≡ spec.wrong_root (H.digest hasher) (map table_of tables.now) entries.now) }
{
    let marks = sorted_marks(alloc, tables)?;
    let hashes = leaf_hashes(alloc, hasher, &marks)?;
    wrong_root(
        alloc,
        hasher,
        entries,
        tables,
        &marks,
        &hashes,
        0,
        entries.len(),
    )
}

/// The place of the first of so many entries, from the one at place `from` on, whose roots, but for those of
/// other tables, differ from the roots over its own marks; and the least table in which they do.
pub(crate) fn wrong_root<H: Hash32>(
    alloc: Global,
    hasher: H,
    entries: &[TxEntry],
    tables: &[ImageTable],
    marks: &[Mark],
    hashes: &[Hash],
    from: usize,
    count: usize,
) -> Result<Option<(u64, TableId)>, Memory>
    requires rise { IsNonDecreasingBy tx_of marks.now }
    requires hashes { hashes.now ≡ map (leaf_hash (H.digest hasher)) marks.now }
    requires within { from + count ≤ length entries.now }
    ensures { IfOk result (λ found. found
        ≡ told.wrong_part (H.digest hasher) (map table_of tables.now) marks.now entries.now from count) }
{
    let mut work = ScratchSpace::new(alloc);
    for k in from..from + count {
        let entry = &entries[k];
        if let Some(table) = wrong_table(alloc, hasher, entry, tables, marks, hashes, &mut work)? {
            return Ok(Some((k as u64, table)));
        }
    }
    Ok(None)
}

fn wrong_table<H: Hash32>(
    alloc: Global,
    hasher: H,
    entry: &TxEntry,
    tables: &[ImageTable],
    marks: &[Mark],
    hashes: &[Hash],
    work: &mut ScratchSpace,
) -> Result<Option<TableId>, Memory>
    requires rise { IsNonDecreasingBy tx_of marks.now }
    requires hashes { hashes.now ≡ map (leaf_hash (H.digest hasher)) marks.now }
    ensures { IfOk result (λ table. table
        ≡ told.wrong_by_marks (H.digest hasher) (map table_of tables.now) marks.now entry.now) }
{
    let (own, hashes) = run_of(marks, hashes, entry.id);
    put_roots(alloc, hasher, own, hashes, &mut work.roots)?;
    Ok(least_wrong(tables, entry.roots.as_slice(), &work.roots))
}

/// The least table in which two lists have another root, or of which only one has one. Of the first the roots
/// for these tables count.
fn least_wrong(tables: &[ImageTable], a: &[TableRoot], b: &[TableRoot]) -> Option<TableId>
    ensures { result ≡ least nat_cmp (told.wrong_roots (map table_of tables.now) a.now b.now) }
{
    let best = least_in_tables(tables, a, b);
    least_among(a, b, b, best)
}

fn least_in_tables(tables: &[ImageTable], a: &[TableRoot], b: &[TableRoot]) -> Option<TableId>
    ensures { result ≡ least nat_cmp
        (filter (λ t. not (same_root (root_at a.now t) (root_at b.now t)) && told.is_shown tables.now t)
        (map (λ r. r.0) a.now)) }
{
    let mut best = None;
    for root in a {
        if !same_root(root_at(a, root.0), root_at(b, root.0)) && is_shown(tables, root.0) {
            best = lesser(best, root.0);
        }
    }
    best
}

/// Whether one of the tables has this id.
pub(crate) fn is_shown(tables: &[ImageTable], id: TableId) -> bool
    ensures { result ≡ told.is_shown tables.now id }
{
    tables.iter().any(|table| table.def.id == id)
}

/// What two groups find of roots is the lesser of what each finds: by the place of the entry, and then by the
/// table.
pub fn roots_of_groups_merge()
    ensures { (h : List ℕ → List ℕ) (first second : Tables) (entries : List LedgerEntry)
        → spec.wrong_root h (first ++ second) entries
        ≡ lesser_of (found_cmp nat_cmp) (spec.wrong_root h first entries) (spec.wrong_root h second entries) }
{}

/// The verdict on roots merges what a group of all tables finds with what is left: the numbers of an entry's
/// events over all tables, and its roots for no table.
pub fn root_fault_is_merged()
    ensures { (h : List ℕ → List ℕ) (i : ImageOf) → IsImage i → root_fault h i
        ≡ spec.fault_place i.entries
        (spec.merged (spec.left_over (tables_in i) i.entries) (spec.wrong_root h (tables_in i) i.entries)) }
{}
