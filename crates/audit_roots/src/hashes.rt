//! The hashes of the leaves of starts and ends.

ghost use Rattle.std.specs.Prelude.{All, ◌≡◌, ◌<◌, ◌≤◌, ◌+◌, ◌∷◌, ◌++◌, [], IfOk, OnOk, drop, length, map, take};
ghost use Rattle.std.specs.List.{filter};
ghost use Rattle.format_event.specs.Leaf.{event_bytes};
ghost use Rattle.audit_roots.specs.Marks.{event_of, leaf_hash, is_end, is_start, woven, HasValues};

use crate::marks::{Mark, put_leaf};
use base_merkle::{Hash32, leaf_hash};
use base_types::{Hash, Memory};
use format_roots::four_leaf_hashes;
use std::alloc::Global;

/// Four leaves that are hashed together.
#[derive(Drop)]
struct Leaves {
    a: Vec<u8>,
    b: Vec<u8>,
    c: Vec<u8>,
    d: Vec<u8>,
}

/// Makes the leaf that of the start or the end, whatever it was.
fn set_leaf(leaf: &mut Vec<u8>, mark: &Mark) -> Result<(), Memory>
    requires { HasValues mark.now }
    ensures { OnOk result (leaf.new.items ≡ event_bytes (event_of mark.now)) }
{
    leaf.clear();
    put_leaf(mark, leaf)
}

fn one_hash<H: Hash32>(hasher: H, leaf: &mut Vec<u8>, mark: &Mark) -> Result<Hash, Memory>
    requires { HasValues mark.now }
    ensures { IfOk result (λ hash. hash ≡ leaf_hash (H.digest hasher) mark.now) }
{
    set_leaf(leaf, mark)?;
    Ok(leaf_hash(hasher, leaf))
}

fn four_hashes<H: Hash32>(
    hasher: H,
    leaves: &mut Leaves,
    a: &Mark,
    b: &Mark,
    c: &Mark,
    d: &Mark,
) -> Result<[Hash; 4], Memory>
    requires first { HasValues a.now }
    requires second { HasValues b.now }
    requires third { HasValues c.now }
    requires fourth { HasValues d.now }
    ensures { IfOk result (λ hashes. hashes ≡ leaf_hash (H.digest hasher) a.now
        ∷ leaf_hash (H.digest hasher) b.now ∷ leaf_hash (H.digest hasher) c.now
        ∷ leaf_hash (H.digest hasher) d.now ∷ []) }
{
    set_leaf(&mut leaves.a, a)?;
    set_leaf(&mut leaves.b, b)?;
    set_leaf(&mut leaves.c, c)?;
    set_leaf(&mut leaves.d, d)?;
    Ok(four_leaf_hashes(hasher, &leaves.a, &leaves.b, &leaves.c, &leaves.d))
}

/// So many marks are parted into starts and ends at once, so that little beside the hashes is kept.
const TOGETHER: usize = 1024;

/// The hashes of the leaves, in their order. The only error is want of memory.
#[tactic(auto, using(crate::proofs::Hashed::hashes_next))]
pub(crate) fn leaf_hashes<H: Hash32>(
    alloc: Global,
    hasher: H,
    marks: &[Mark],
) -> Result<Vec<Hash>, Memory>
    requires { All HasValues marks.now }
    ensures { IfOk result (λ hashes. hashes.items ≡ map (leaf_hash (H.digest hasher)) marks.now) }
{
    let mut hashes = Vec::with_capacity(alloc, marks.len())?;
    let mut done = 0;
    'parts: while done < marks.len() {
        let part = part_from(marks, done);
        let own = hashes_apart(alloc, hasher, part)?;
        hashes.extend_from_slice(&own)?;
        done += part.len();
    }
    Ok(hashes)
}

/// The marks that are hashed together, from the one at this place on.
#[tactic(auto, using(crate::proofs::Hashed::part_at))]
fn part_from<'m, 'a>(marks: &'m [Mark<'a>], from: usize) -> &'m [Mark<'a>]
    requires within { from < length marks.now }
    requires values { All HasValues marks.now }
    ensures part { take (from + length result.now) marks.now ≡ take from marks.now ++ result.now }
    ensures some { 0 < length result.now }
    ensures end { from + length result.now ≤ length marks.now }
    ensures values { All HasValues result.now }
{
    let (_, rest) = parts_at(marks, from);
    let (part, _) = parts_at(rest, rest.len().min(TOGETHER));
    part
}

/// So many marks, and those behind them.
pub(crate) fn parts_at<'m, 'a>(
    marks: &'m [Mark<'a>],
    front: usize,
) -> (&'m [Mark<'a>], &'m [Mark<'a>])
    requires within { front ≤ length marks.now }
    requires values { All HasValues marks.now }
    ensures parts { marks.now ≡ result.0.now ++ result.1.now }
    ensures many { length result.0.now ≡ front }
    ensures fewer { length result.1.now + front ≡ length marks.now }
    ensures first { All HasValues result.0.now }
    ensures second { All HasValues result.1.now }
{
    marks.split_at(front)
}

/// The hashes of the leaves, in their order. The leaf of an end is longer than that of its version's start, and only
/// leaves of one number of the hash's blocks gain by being hashed together: so starts and ends are hashed apart.
fn hashes_apart<H: Hash32>(alloc: Global, hasher: H, marks: &[Mark]) -> Result<Vec<Hash>, Memory>
    requires { All HasValues marks.now }
    ensures { IfOk result (λ hashes. hashes.items ≡ map (leaf_hash (H.digest hasher)) marks.now) }
{
    let starts = starts_of(alloc, marks)?;
    let ends = ends_of(alloc, marks)?;
    let of_starts = hashes_in_fours(alloc, hasher, &starts)?;
    let of_ends = hashes_in_fours(alloc, hasher, &ends)?;
    woven(alloc, marks, &of_starts, &of_ends)
}

fn starts_of<'a>(alloc: Global, marks: &[Mark<'a>]) -> Result<Vec<Mark<'a>>, Memory>
    ensures { IfOk result (λ starts. starts.items ≡ filter is_start marks.now) }
{
    let mut starts = Vec::new(alloc);
    for mark in marks {
        if !mark.is_end {
            starts.push(*mark)?;
        }
    }
    Ok(starts)
}

fn ends_of<'a>(alloc: Global, marks: &[Mark<'a>]) -> Result<Vec<Mark<'a>>, Memory>
    ensures { IfOk result (λ ends. ends.items ≡ filter is_end marks.now) }
{
    let mut ends = Vec::new(alloc);
    for mark in marks {
        if mark.is_end {
            ends.push(*mark)?;
        }
    }
    Ok(ends)
}

/// For each start the next of the first hashes, and for each end the next of the second.
#[tactic(auto, using(crate::proofs::Woven::end_next, crate::proofs::Woven::start_next))]
fn woven(alloc: Global, marks: &[Mark], starts: &[Hash], ends: &[Hash]) -> Result<Vec<Hash>, Memory>
    ensures { IfOk result (λ hashes. hashes.items ≡ woven marks.now starts.now ends.now) }
{
    let mut hashes = Vec::with_capacity(alloc, marks.len())?;
    let mut starts = starts;
    let mut ends = ends;
    for mark in marks {
        if mark.is_end {
            ends = put_first(ends, &mut hashes)?;
        } else {
            starts = put_first(starts, &mut hashes)?;
        }
    }
    Ok(hashes)
}

/// Appends the first of these hashes, if there is one, and gives those behind it.
fn put_first<'h>(given: &'h [Hash], hashes: &mut Vec<Hash>) -> Result<&'h [Hash], Memory>
    ensures first { OnOk result (hashes.new.items ≡ hashes.old.items ++ take 1 given.now) }
    ensures behind { IfOk result (λ behind. behind.now ≡ drop 1 given.now) }
{
    match given {
        [] => Ok(given),
        [first, behind @ ..] => {
            hashes.push(*first)?;
            Ok(behind)
        }
    }
}

/// The hashes of the leaves, in their order. As many as can be are computed four at a time, whatever their
/// transactions and tables.
fn hashes_in_fours<H: Hash32>(alloc: Global, hasher: H, marks: &[Mark]) -> Result<Vec<Hash>, Memory>
    requires { All HasValues marks.now }
    ensures { IfOk result (λ hashes. hashes.items ≡ map (leaf_hash (H.digest hasher)) marks.now) }
{
    let mut hashes = Vec::with_capacity(alloc, marks.len())?;
    let mut leaves = Leaves {
        a: Vec::new(alloc),
        b: Vec::new(alloc),
        c: Vec::new(alloc),
        d: Vec::new(alloc),
    };
    let mut done = 0;
    'fours: while marks.len() - done >= 4 {
        let four = four_hashes(
            hasher,
            &mut leaves,
            &marks[done],
            &marks[done + 1],
            &marks[done + 2],
            &marks[done + 3],
        )?;
        hashes.extend_from_slice(&four)?;
        done += 4;
    }
    'rest: while done < marks.len() {
        let hash = one_hash(hasher, &mut leaves.a, &marks[done])?;
        hashes.push(hash)?;
        done += 1;
    }
    Ok(hashes)
}
