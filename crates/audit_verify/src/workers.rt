//! The verdict on bytes, and on the image that they are, by several threads, which go through groups of the
//! tables.

ghost use Rattle.std.specs.Prelude.{◌≡◌, ◌<◌, ◌≤◌, ◌+◌, ℕ, IfOk, IfSome, Some, length, None, slice_index};
ghost use Rattle.std.specs.Thread.{IsSend, IsSync};
ghost use Rattle.sql_types.specs.declared.image.Image.{Image};
ghost use Rattle.format_image.specs.ImageBytes.{IsImage, IsSpellingOf};
ghost use Rattle.format_image.specs.Tables.{tables_in};
ghost use Rattle.spec_verify.specs.Bytes.{verdict_of};
ghost use Rattle.spec_verify.specs.Entries.{id_fault as id_fault_of};
ghost use Rattle.spec_verify.specs.Indexes.{index_fault};
ghost use Rattle.spec_verify.specs.Rules.{row_fault};
ghost use Rattle.spec_verify.specs.Verdict.{image_verdict};
ghost use Rattle.audit_verify.specs.Groups as spec;
ghost use Rattle.audit_verify.specs.Verdict.{blocks_tried, rows_tried, tables_tried};

use crate::blocks::{block_fault_by, chain_fault, digest_fault};
use crate::entries::Entries;
use crate::groups::{GroupFaults, RowFaults, group_faults, group_rows};
use crate::ids::id_fault;
use crate::merged::both;
use crate::verdict::verify_image;
use audit_roots::{Fault, left_over, root_place, shown_tables, wrong_root_in_group_by};
use audit_rules::catalog_fault;
use base_merkle::Hash32;
use base_types::{Memory, TableId};
use format_image::{Image, TableRows, read_image};
use spec_verify::{Invariant, Place, Verdict};
use sql_system::first_tables;
use sql_types::HeldDigest;
use std::alloc::Global;
use std::thread::{Threads, join};

/// The image whose bytes these are, or none where they are those of no image.
fn image_in(alloc: Global, bytes: &[u8]) -> Result<Option<Image>, Memory>
    ensures bytes { (i : ℕ) → slice_index bytes.now i < 256 }
    ensures found { IfOk result (λ read. IfSome read (λ i. IsImage i × IsSpellingOf bytes.now i)) }
    ensures only { (i : Image) → IsImage i → IsSpellingOf bytes.now i → IfOk result (λ read. read ≡ Some i) }
{
    read_image(alloc, bytes)
}

/// The verdict on these bytes with these digests, by so many threads: Yes, or the first invariant that fails
/// with its least place. The only error is want of memory; where no thread can be started the caller's does
/// its work.
///
/// The caller's thread reads the image and goes through the chain of the blocks and the ids. The workers hash the
/// entries of parts of the blocks. Then they go through groups of the tables, each by its share of the workers,
/// while the caller's thread goes through the numbers of events. Of a table that has several workers they hash the
/// leaves and then the roots, beside one more thread that tests its versions and indexes.
pub fn verify<H: Hash32, R: Threads + Sync>(
    rt: &R,
    alloc: Global,
    hasher: H,
    bytes: Vec<u8>,
    digests: &[HeldDigest],
    workers: u32,
) -> Result<Verdict, Memory>
    ensures { IfOk result (λ v. v ≡ verdict_of (H.digest hasher) digests.now bytes.items) }
{
    let read = image_in(alloc, &bytes)?;
    // going through the image takes much memory of its own
    drop(bytes);
    match read {
        Some(image) => verify_image_with_workers(rt, alloc, hasher, &image, digests, workers),
        None => Ok(Verdict::No(Invariant::V0, Place::Whole)),
    }
}

/// The verdict on an image that has a spelling, as `verify_image` gives it, by so many threads.
pub fn verify_image_with_workers<H: Hash32, R: Threads + Sync>(
    rt: &R,
    alloc: Global,
    hasher: H,
    image: &Image,
    digests: &[HeldDigest],
    workers: u32,
) -> Result<Verdict, Memory>
    requires { IsImage image.now }
    ensures { IfOk result (λ v. v ≡ image_verdict (H.digest hasher) image.now digests.now) }
{
    if workers <= 1 {
        return verify_image(alloc, hasher, image, digests);
    }
    match verify_blocks_by(rt, alloc, hasher, image, digests, workers)? {
        Verdict::Yes => verify_groups(rt, alloc, hasher, image, workers),
        no => Ok(no),
    }
}

/// The invariants that speak of digests and blocks: Yes where none of them fails.
fn verify_blocks_by<H: Hash32, R: Threads + Sync>(
    rt: &R,
    alloc: Global,
    hasher: H,
    image: &Image,
    digests: &[HeldDigest],
    workers: u32,
) -> Result<Verdict, Memory>
    requires { IsImage image.now }
    ensures { IfOk result (λ v. v ≡ blocks_tried (H.digest hasher) image.now digests.now) }
{
    if let Some(place) = digest_fault(hasher, image, digests) {
        return Ok(Verdict::No(Invariant::V1, place));
    }
    if let Some(place) = chain_fault(hasher, image) {
        return Ok(Verdict::No(Invariant::V2, place));
    }
    match block_fault_by(rt, alloc, hasher, image, workers)? {
        Some(place) => Ok(Verdict::No(Invariant::V3, place)),
        None => Ok(Verdict::Yes),
    }
}

/// The invariants that speak of the rows of tables.
fn verify_groups<H: Hash32, R: Threads + Sync>(
    rt: &R,
    alloc: Global,
    hasher: H,
    image: &Image,
    workers: u32,
) -> Result<Verdict, Memory>
    requires { IsImage image.now }
    ensures { IfOk result (λ v. v ≡ tables_tried (H.digest hasher) image.now) }
{
    let system = first_tables(alloc)?;
    let tables = shown_tables(alloc, &system, image)?;
    let entries = Entries::new(alloc, image.entries.as_slice())?;
    if let Some(place) = id_fault(image, &entries, &tables) {
        return Ok(Verdict::No(Invariant::V4, place));
    }
    let count = image.tables.len();
    let found = all_faults(rt, alloc, hasher, image, count, workers)?;
    let root = root_place(image.entries.as_slice(), found.left, found.groups.root);
    verdict_on(alloc, image, root, found.groups)
}

/// What fails in groups of tables, and what is left beside that.
#[derive(Clone, Copy, Debug)]
struct AllFaults {
    left: Option<(u64, Fault)>,
    groups: GroupFaults,
}

/// What fails in the first so many tables, by so many threads, and beside them what is left.
fn all_faults<H: Hash32, R: Threads + Sync>(
    rt: &R,
    alloc: Global,
    hasher: H,
    image: &Image,
    count: usize,
    workers: u32,
) -> Result<AllFaults, Memory>
    requires image { IsImage image.now }
    requires ids { id_fault_of image.now ≡ None }
    requires within { count ≤ length image.now.tables }
    ensures left { IfOk result (λ found. found.left ≡ spec.left_over (tables_in image.now) image.now.entries) }
    ensures groups { IfOk result (λ found. spec.AreFaults (H.digest hasher) 0 count image.now found.groups) }
{
    let (left, groups) = join(
        rt,
        || -> Result<Option<(u64, Fault)>, Memory>
            requires image { IsImage image.now }
            ensures { IfOk result (λ left. left ≡ spec.left_over (tables_in image.entry.now) image.entry.now.entries) }
        { left_in(alloc, image) },
        || -> Result<GroupFaults, Memory>
            requires sync { IsSync R.row × IsSync H.row × IsSend H.row }
            requires image { IsImage image.now }
            requires ids { id_fault_of image.now ≡ None }
            requires within { count ≤ length image.now.tables }
            ensures { IfOk result (spec.AreFaults (H.digest hasher) 0 count image.entry.now) }
        { faults_of(rt, alloc, hasher, image, 0, count, workers) },
    );
    Ok(AllFaults {
        left: left?,
        groups: groups?,
    })
}

/// What is left of the entries beside what groups find.
fn left_in(alloc: Global, image: &Image) -> Result<Option<(u64, Fault)>, Memory>
    requires { IsImage image.now }
    ensures { IfOk result (λ left. left ≡ spec.left_over (tables_in image.now) image.now.entries) }
{
    let system = first_tables(alloc)?;
    let tables = shown_tables(alloc, &system, image)?;
    left_over(alloc, image.entries.as_slice(), &tables)
}

/// The verdict by the place at which a root of an entry is at fault, and by what all tables show. Definitions
/// come after versions, by which the ids in their rows are small.
fn verdict_on(
    alloc: Global,
    image: &Image,
    root: Option<Place>,
    found: GroupFaults,
) -> Result<Verdict, Memory>
    requires image { IsImage image.now }
    requires version { found.version ≡ row_fault image.now }
    requires index { found.index ≡ spec.if_none found.version (index_fault image.now) }
    ensures { IfOk result (λ v. v ≡ rows_tried root image.now) }
{
    if let Some(place) = root {
        return Ok(Verdict::No(Invariant::V5, place));
    }
    if let Some(place) = found.version {
        return Ok(Verdict::No(Invariant::V6, place));
    }
    if let Some(place) = catalog_fault(alloc, image)? {
        return Ok(Verdict::No(Invariant::V7, place));
    }
    match found.index {
        Some(place) => Ok(Verdict::No(Invariant::V8, place)),
        None => Ok(Verdict::Yes),
    }
}

/// What fails in so many tables of the image, from the one at place `from` on, by so many threads. The tables
/// are halved by their versions, and each half has about its share of the threads, at least one.
fn faults_of<H: Hash32, R: Threads + Sync>(
    rt: &R,
    alloc: Global,
    hasher: H,
    image: &Image,
    from: usize,
    count: usize,
    workers: u32,
) -> Result<GroupFaults, Memory>
    requires image { IsImage image.now }
    requires ids { id_fault_of image.now ≡ None }
    requires within { from + count ≤ length image.now.tables }
    ensures { IfOk result (spec.AreFaults (H.digest hasher) from count image.now) }
{
    if workers <= 1 {
        return group_faults(alloc, hasher, image, from, count);
    }
    if count <= 1 {
        return faults_side_by_side(rt, alloc, hasher, image, from, count, workers);
    }
    let tables = &image.tables.as_slice()[from..from + count];
    let front = front_of(tables).clamp(1, count - 1);
    let middle = from + front;
    let rest = count - front;
    let share = share_of(&tables[..front], tables, workers);
    let fewer = share.max(1);
    let others = (workers - share).max(1);
    let (first, second) = join(
        rt,
        || -> Result<GroupFaults, Memory>
            requires sync { IsSync R.row × IsSync H.row × IsSend H.row }
            requires image { IsImage image.now }
            requires ids { id_fault_of image.now ≡ None }
            requires within { from + front ≤ length image.now.tables }
            ensures { IfOk result (spec.AreFaults (H.digest hasher) from front image.entry.now) }
        { faults_of(rt, alloc, hasher, image, from, front, fewer) },
        || -> Result<GroupFaults, Memory>
            requires sync { IsSync R.row × IsSync H.row × IsSend H.row }
            requires image { IsImage image.now }
            requires ids { id_fault_of image.now ≡ None }
            requires within { middle + rest ≤ length image.now.tables }
            ensures { IfOk result (spec.AreFaults (H.digest hasher) middle rest image.entry.now) }
        { faults_of(rt, alloc, hasher, image, middle, rest, others) },
    );
    Ok(both(first?, second?))
}

/// The same of tables that aren't parted. Their roots, which take most of the time, are gone through by so many
/// threads, and their versions and indexes by one more beside them.
fn faults_side_by_side<H: Hash32, R: Threads + Sync>(
    rt: &R,
    alloc: Global,
    hasher: H,
    image: &Image,
    from: usize,
    count: usize,
    workers: u32,
) -> Result<GroupFaults, Memory>
    requires image { IsImage image.now }
    requires ids { id_fault_of image.now ≡ None }
    requires within { from + count ≤ length image.now.tables }
    ensures { IfOk result (spec.AreFaults (H.digest hasher) from count image.now) }
{
    let (root, rows) = join(
        rt,
        || -> Result<Option<(u64, TableId)>, Memory>
            requires sync { IsSync R.row × IsSync H.row × IsSend H.row }
            requires image { IsImage image.now }
            requires within { from + count ≤ length image.now.tables }
            ensures { IfOk result (λ root. root ≡ spec.wrong_root (H.digest hasher)
                (spec.group_of from count image.entry.now) image.entry.now.entries) }
        { wrong_root_in_group_by(rt, alloc, hasher, image, from, count, workers) },
        || -> Result<RowFaults, Memory>
            requires image { IsImage image.now }
            requires ids { id_fault_of image.now ≡ None }
            requires within { from + count ≤ length image.now.tables }
            ensures version { IfOk result (λ faults. faults.version
                ≡ spec.version_in image.entry.now (spec.group_of from count image.entry.now)) }
            ensures index { IfOk result (λ faults. faults.index
                ≡ spec.if_none faults.version (spec.index_in from count image.entry.now)) }
        { group_rows(alloc, image, from, count) },
    );
    let (root, rows) = (root?, rows?);
    Ok(GroupFaults {
        root,
        version: rows.version,
        index: rows.index,
    })
}

/// How many of the first of these tables have about half of their versions.
fn front_of(tables: &[TableRows]) -> usize {
    let half = versions_in(tables) / 2;
    let mut seen = 0usize;
    for (k, rows) in tables.iter().enumerate() {
        let count = versions_of(rows);
        if seen.saturating_add(count / 2) > half {
            return k;
        }
        seen = seen.saturating_add(count);
    }
    tables.len()
}

/// How many of so many threads fall to some of these tables, by their versions.
fn share_of(some: &[TableRows], tables: &[TableRows], workers: u32) -> u32
    requires { 0 < workers }
    ensures { result ≤ workers }
{
    let each = (versions_in(tables) / workers as usize).max(1);
    let share = versions_in(some).saturating_add(each / 2) / each;
    u32::try_from(share).unwrap_or(workers).min(workers)
}

fn versions_in(tables: &[TableRows]) -> usize {
    let mut count = 0usize;
    for rows in tables {
        count = count.saturating_add(versions_of(rows));
    }
    count
}

fn versions_of(rows: &TableRows) -> usize {
    let base = rows.base.len();
    base.saturating_add(rows.history.len())
}
