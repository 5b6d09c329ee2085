//! Groups of the tables of an image, which may be gone through apart, and how what they find merges.

ghost use Rattle.std.specs.Prelude.{All, ◌≡◌, ◌≤◌, ◌+◌, IfOk, length, map, None};
ghost use Rattle.std.specs.List.{AllByRecursion};
ghost use Rattle.format_image.specs.ImageBytes.{IsImage};
ghost use Rattle.spec_verify.specs.Entries.{id_fault};
ghost use Rattle.audit_roots.specs.ImageTable.{table_of};
ghost use Rattle.audit_verify.specs.Groups as spec;
ghost use Rattle.audit_verify.specs.Indexes.{HasFewIndexes, first_among};
ghost use Rattle.audit_verify.specs.Order.{AreStarted};

use crate::indexes::fault_among;
use crate::least::event_place;
use crate::versions::{least_invalid_version, times_of};
use audit_columns::ColumnRows;
use audit_roots::{ImageTable, group_of, shown_tables, wrong_root_in_group};
use base_merkle::Hash32;
use base_types::{Memory, TableId};
use format_image::Image;
use spec_verify::Place;
use sql_system::first_tables;
use std::alloc::Global;

/// What fails in a group of tables.
#[derive(Clone, Copy, Debug, PartialEq, Eq)]
pub struct GroupFaults {
    /// The place, from 0, of the first entry that has another root in one of these tables than its events
    /// there, or a root without events, or events without a root; and the least of those tables.
    pub root: Option<(u64, TableId)>,
    /// The start of the least version that its table may not have, or that breaks a rule of changes.
    pub version: Option<Place>,
    /// The first index whose rows aren't those of the base, where each version of these tables is one that
    /// its table may have.
    pub index: Option<Place>,
}

/// What fails of the versions and the indexes of a group of tables.
#[derive(Clone, Copy, Debug, PartialEq, Eq)]
pub struct RowFaults {
    /// As `GroupFaults` has it.
    pub version: Option<Place>,
    /// As `GroupFaults` has it.
    pub index: Option<Place>,
}

/// What fails in so many tables of the image, from the one at place `from` on, where no id of an entry
/// repeats and each start and end has its entry. What groups find of roots merges by `roots_of_groups_merge` and
/// `root_fault_is_merged`. The only error is want of memory.
pub fn group_faults<H: Hash32>(
    alloc: Global,
    hasher: H,
    image: &Image,
    from: usize,
    count: usize,
) -> Result<GroupFaults, Memory>
    requires image { IsImage image.now }
    requires ids { id_fault image.now ≡ None }
    requires within { from + count ≤ length image.now.tables }
    ensures root { IfOk result (λ faults. faults.root
        ≡ spec.wrong_root (H.digest hasher) (spec.group_of from count image.now) image.now.entries) }
    ensures version { IfOk result (λ faults. faults.version
        ≡ spec.version_in image.now (spec.group_of from count image.now)) }
    ensures index { IfOk result (λ faults. faults.index
        ≡ spec.if_none faults.version (spec.index_in from count image.now)) }
{
    let root = wrong_root_in_group(alloc, hasher, image, from, count)?;
    let rows = group_rows(alloc, image, from, count)?;
    Ok(GroupFaults {
        root,
        version: rows.version,
        index: rows.index,
    })
}

/// What fails of the versions and indexes of these tables.
pub(crate) fn group_rows(
    alloc: Global,
    image: &Image,
    from: usize,
    count: usize,
) -> Result<RowFaults, Memory>
    requires image { IsImage image.now }
    requires ids { id_fault image.now ≡ None }
    requires within { from + count ≤ length image.now.tables }
    ensures version { IfOk result (λ faults. faults.version
        ≡ spec.version_in image.now (spec.group_of from count image.now)) }
    ensures index { IfOk result (λ faults. faults.index
        ≡ spec.if_none faults.version (spec.index_in from count image.now)) }
{
    let system = first_tables(alloc)?;
    let tables = shown_tables(alloc, &system, image)?;
    let group = group_of(&tables, from, count);
    let version = version_in_group(alloc, image, group)?;
    let index = index_in_group(alloc, version, group)?;
    Ok(RowFaults { version, index })
}

/// The least version of these tables that its table may not have or that breaks a rule, by all rows of the system
/// tables.
fn version_in_group(
    alloc: Global,
    image: &Image,
    tables: &[ImageTable],
) -> Result<Option<Place>, Memory>
    requires { All (AreStarted image.now.entries) tables.now }
    ensures { IfOk result (λ place. place ≡ spec.version_in image.now (map table_of tables.now)) }
{
    let columns = ColumnRows::of(alloc, image)?;
    let times = times_of(alloc, &columns, image)?;
    let worst = least_invalid_version(alloc, &columns, &times, tables)?;
    Ok(event_place(worst))
}

/// The first index at fault, where no version is.
fn index_in_group(
    alloc: Global,
    version: Option<Place>,
    tables: &[ImageTable],
) -> Result<Option<Place>, Memory>
    requires { AllByRecursion HasFewIndexes tables.now }
    ensures { IfOk result (λ place. place ≡ spec.if_none version (first_among tables.now)) }
{
    match version {
        Some(_) => Ok(None),
        None => fault_among(alloc, tables),
    }
}
