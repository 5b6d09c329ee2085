//! The roots of entries in a group of tables, by several threads.

ghost use Rattle.std.specs.Prelude.{All, ◌≡◌, ◌≤◌, ◌+◌, ◌++◌, IfOk, length, map};
ghost use Rattle.std.specs.List.Sorted.{IsNonDecreasingBy};
ghost use Rattle.std.specs.Thread.{IsSend, IsSync};
ghost use Rattle.format_image.specs.ImageBytes.{IsImage};
ghost use Rattle.audit_roots.specs.Groups as spec;
ghost use Rattle.audit_roots.specs.ImageTable.{IdsRise, table_of};
ghost use Rattle.audit_roots.specs.Marks.{HasValues, HaveEncodableValues, leaf_hash, tx_of};
ghost use Rattle.audit_roots.specs.WrongRoots as told;

use crate::groups::{group_of, wrong_root};
use crate::hashes::{leaf_hashes, parts_at};
use crate::marks::{Mark, sorted_marks};
use crate::merged::first_root;
use crate::shown::{ImageTable, shown_tables};
use base_merkle::Hash32;
use base_types::{Hash, Memory, TableId};
use format_image::Image;
use sql_system::first_tables;
use sql_types::TxEntry;
use std::alloc::Global;
use std::thread::{Threads, join};

/// What fails of the roots in so many tables of the image, from the one at place `from` on, as `wrong_root_in_group`
/// gives it, by so many threads: each hashes about as many leaves, and then goes through about as many entries, while
/// the caller's thread alone sorts the starts and ends. The only error is want of memory; where no thread can be
/// started the caller's does its work.
pub fn wrong_root_in_group_by<H: Hash32, R: Threads + Sync>(
    rt: &R,
    alloc: Global,
    hasher: H,
    image: &Image,
    from: usize,
    count: usize,
    workers: u32,
) -> Result<Option<(u64, TableId)>, Memory>
    requires image { IsImage image.now }
    requires within { from + count ≤ length image.now.tables }
    ensures { IfOk result (λ root. root
        ≡ spec.wrong_root (H.digest hasher) (spec.group_of from count image.now) image.now.entries) }
{
    let system = first_tables(alloc)?;
    let tables = shown_tables(alloc, &system, image)?;
    let group = group_of(&tables, from, count);
    root_in_group_by(rt, alloc, hasher, image.entries.as_slice(), group, workers)
}

/// The first entry that is wrong in one of these tables, and the least of them.
fn root_in_group_by<H: Hash32, R: Threads + Sync>(
    rt: &R,
    alloc: Global,
    hasher: H,
    entries: &[TxEntry],
    tables: &[ImageTable],
    workers: u32,
) -> Result<Option<(u64, TableId)>, Memory>
    requires spelled { All HaveEncodableValues tables.now }
    requires rise { IdsRise 0 (map table_of tables.now) }
    ensures { IfOk result (λ found. found
        ≡ spec.wrong_root (H.digest hasher) (map table_of tables.now) entries.now) }
{
    let marks = sorted_marks(alloc, tables)?;
    let hashes = leaf_hashes_by(rt, alloc, hasher, &marks, workers)?;
    let count = entries.len();
    wrong_root_by(
        rt, alloc, hasher, entries, tables, &marks, &hashes, 0, count, workers,
    )
}

/// The hashes of the leaves, in their order, by so many threads.
#[tactic(auto, using(crate::proofs::Hashed::hashes_of_both))]
fn leaf_hashes_by<H: Hash32, R: Threads + Sync>(
    rt: &R,
    alloc: Global,
    hasher: H,
    marks: &[Mark],
    workers: u32,
) -> Result<Vec<Hash>, Memory>
    requires { All HasValues marks.now }
    ensures { IfOk result (λ hashes. hashes.items ≡ map (leaf_hash (H.digest hasher)) marks.now) }
{
    if workers <= 1 {
        return leaf_hashes(alloc, hasher, marks);
    }
    let fewer = workers / 2;
    let others = workers - fewer;
    let front = (marks.len() / workers as usize)
        .saturating_mul(fewer as usize)
        .min(marks.len());
    let (a, b) = parts_at(marks, front);
    let (first, second) = join(
        rt,
        move || -> Result<Vec<Hash>, Memory>
            requires sync { IsSync R.row × IsSync H.row × IsSend H.row }
            requires values { All HasValues a.now }
            ensures { IfOk result (λ hashes. hashes.items ≡ map (leaf_hash (H.digest hasher)) a.entry.now) }
        { leaf_hashes_by(rt, alloc, hasher, a, fewer) },
        move || -> Result<Vec<Hash>, Memory>
            requires sync { IsSync R.row × IsSync H.row × IsSend H.row }
            requires values { All HasValues b.now }
            ensures { IfOk result (λ hashes. hashes.items ≡ map (leaf_hash (H.digest hasher)) b.entry.now) }
        { leaf_hashes_by(rt, alloc, hasher, b, others) },
    );
    let second = second?;
    joined(first?, &second)
}

/// The hashes of two parts, one behind the other.
fn joined(first: Vec<Hash>, second: &[Hash]) -> Result<Vec<Hash>, Memory>
    ensures { IfOk result (λ hashes. hashes.items ≡ first.items ++ second.now) }
{
    let mut hashes = first;
    hashes.extend_from_slice(second)?;
    Ok(hashes)
}

/// The first of so many entries, from the one at place `from` on, that is wrong, by so many threads.
fn wrong_root_by<H: Hash32, R: Threads + Sync>(
    rt: &R,
    alloc: Global,
    hasher: H,
    entries: &[TxEntry],
    tables: &[ImageTable],
    marks: &[Mark],
    hashes: &[Hash],
    from: usize,
    count: usize,
    workers: u32,
) -> Result<Option<(u64, TableId)>, Memory>
    requires rise { IsNonDecreasingBy tx_of marks.now }
    requires hashes { hashes.now ≡ map (leaf_hash (H.digest hasher)) marks.now }
    requires within { from + count ≤ length entries.now }
    ensures { IfOk result (λ found. found
        ≡ told.wrong_part (H.digest hasher) (map table_of tables.now) marks.now entries.now from count) }
{
    if workers <= 1 || count <= 1 {
        return wrong_root(alloc, hasher, entries, tables, marks, hashes, from, count);
    }
    let fewer = workers / 2;
    let others = workers - fewer;
    let front = (count / workers as usize)
        .saturating_mul(fewer as usize)
        .clamp(1, count - 1);
    let middle = from + front;
    let rest = count - front;
    let (first, second) = join(
        rt,
        move || -> Result<Option<(u64, TableId)>, Memory>
            requires sync { IsSync R.row × IsSync H.row × IsSend H.row }
            requires rise { IsNonDecreasingBy tx_of marks.now }
            requires hashes { hashes.now ≡ map (leaf_hash (H.digest hasher)) marks.now }
            requires within { from + front ≤ length entries.now }
            ensures { IfOk result (λ found. found ≡ told.wrong_part (H.digest hasher)
                (map table_of tables.entry.now) marks.entry.now entries.entry.now from front) }
        {
            wrong_root_by(
                rt, alloc, hasher, entries, tables, marks, hashes, from, front, fewer,
            )
        },
        move || -> Result<Option<(u64, TableId)>, Memory>
            requires sync { IsSync R.row × IsSync H.row × IsSend H.row }
            requires rise { IsNonDecreasingBy tx_of marks.now }
            requires hashes { hashes.now ≡ map (leaf_hash (H.digest hasher)) marks.now }
            requires within { middle + rest ≤ length entries.now }
            ensures { IfOk result (λ found. found ≡ told.wrong_part (H.digest hasher)
                (map table_of tables.entry.now) marks.entry.now entries.entry.now middle rest) }
        {
            wrong_root_by(
                rt, alloc, hasher, entries, tables, marks, hashes, middle, rest, others,
            )
        },
    );
    Ok(first_root(first?, second?))
}
