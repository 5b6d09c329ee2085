//! The ends of versions in the order of the events that made them.

ghost use Rattle.std.specs.Prelude.{◌≡◌, ◌≤◌, ◌<◌, ◌++◌, List, true, false, nat_le, IfNone, IfOk, IfSome, OnOk, length, vec_capacity};
ghost use Rattle.std.specs.List.{AllByRecursion, Contains};
ghost use Rattle.std.specs.Ordering.{is_lt};
ghost use Rattle.spec_model.specs.Lists.{inserted, sorted};
ghost use Rattle.spec_model.specs.Undo as undo;
ghost use Rattle.store_table.specs.Ends.{ending_cmp, ending_place, endings_in, endings_of, own_ending};
ghost use Rattle.store_table.specs.declared.ending.Ending.{Ending as SpecEnding};

use crate::searching::is_undone;
use base_types::{Memory, TxId};
use sql_types::{EventId, Version};
use std::alloc::Global;
use std::cmp::Ordering;

/// The end of a version.
#[derive(Clone, Copy, Debug, PartialEq, Eq)]
pub struct Ending {
    /// The event that ended it.
    pub end: EventId,
    /// The event that started it.
    pub start: EventId,
}

// By the events that ended the versions, and then by those that started them.
fn compare_endings(a: &Ending, b: &Ending) -> Ordering
    ensures { result ≡ ending_cmp a.now b.now }
{
    a.end.cmp(&b.end).then(a.start.cmp(&b.start))
}

fn comes_before(a: &Ending, b: &Ending) -> bool
    ensures { result ≡ is_lt (ending_cmp a.now b.now) }
{
    compare_endings(a, b).is_lt()
}

/// Where an end stands among ends in their order, or would stand, by halving.
fn place_of(ends: &[Ending], ending: &Ending) -> usize
    requires { (all : List SpecEnding) × (ends.now ≡ sorted ending_cmp all) }
    ensures place { result ≡ ending_place ending.now ends.now }
    ensures bound { result ≤ length ends.now }
{
    ends.partition_point(|other| comes_before(other, ending))
}

/// Puts an end in its place. Takes no memory.
pub(crate) fn add_ending(ends: &mut Vec<Ending>, ending: Ending)
    requires sorted { (all : List SpecEnding) × (ends.old.items ≡ sorted ending_cmp all) }
    requires room { length ends.old.items < vec_capacity ends.old }
    ensures items { ends.new.items ≡ inserted ending_cmp ending ends.old.items }
    ensures room { vec_capacity ends.old ≤ vec_capacity ends.new }
{
    let place = place_of(ends, &ending);
    ends.insert(place, ending).unwrap();
}

/// Takes out an end, which is there.
pub(crate) fn take_ending(ends: &mut Vec<Ending>, ending: Ending)
    requires sorted { (all : List SpecEnding) × (ends.old.items ≡ sorted ending_cmp all) }
    requires there { (rest : List SpecEnding) × (ends.old.items ≡ inserted ending_cmp ending rest) }
    ensures items { (rest : List SpecEnding) → ends.old.items ≡ inserted ending_cmp ending rest
        → ends.new.items ≡ rest }
    ensures room { vec_capacity ends.old ≤ vec_capacity ends.new }
{
    let place = place_of(ends, &ending);
    ends.remove(place);
}

fn is_up_to(ending: &Ending, tx: TxId) -> bool
    ensures { result ≡ nat_le ending.now.end.0 tx }
{
    ending.end.tx <= tx
}

/// The last end that the transaction made, where its number is `seq` or above.
pub(crate) fn last_ending(ends: &[Ending], tx: TxId, seq: u64) -> Option<Ending>
    requires { (all : List SpecEnding) × (ends.now ≡ sorted ending_cmp all) }
    ensures some { IfSome result (λ e. Contains ends.now e × (undo.is_undone tx seq e.end ≡ true)) }
    ensures none { IfNone result (AllByRecursion (λ e. undo.is_undone tx seq e.end ≡ false) ends.now) }
{
    let behind = ends.partition_point(|ending| is_up_to(ending, tx));
    if behind > 0 && is_undone(ends[behind - 1].end, tx, seq) {
        Some(ends[behind - 1])
    } else {
        None
    }
}

/// Makes room for so many ends.
pub(crate) fn reserve_ends(ends: &mut Vec<Ending>, count: usize) -> Result<(), Memory>
    ensures items { ends.new.items ≡ ends.old.items }
    ensures room { vec_capacity ends.old ≤ vec_capacity ends.new }
    ensures ok { OnOk result (count ≤ vec_capacity ends.new) }
{
    ends.reserve(count.saturating_sub(ends.len()))?;
    Ok(())
}

// Adds the end of a version, where it has one.
fn add_own(ends: &mut Vec<Ending>, version: &Version) -> Result<(), Memory>
    ensures ok { OnOk result (ends.new.items ≡ ends.old.items ++ own_ending version.now.end version.now.start) }
    ensures room { vec_capacity ends.old ≤ vec_capacity ends.new }
{
    if let Some(end) = version.end {
        let start = version.start;
        ends.push(Ending { end, start })?;
    }
    Ok(())
}

fn endings_of(alloc: Global, versions: &[Version]) -> Result<Vec<Ending>, Memory>
    ensures items { IfOk result (λ ends. ends.items ≡ endings_of versions.now) }
    ensures room { IfOk result (λ ends. length versions.now ≤ vec_capacity ends) }
{
    let mut ends = Vec::with_capacity(alloc, versions.len())?;
    for version in versions {
        add_own(&mut ends, version)?;
    }
    Ok(ends)
}

fn sort_endings(ends: &mut Vec<Ending>) -> Result<(), Memory>
    ensures ok { OnOk result (ends.new.items ≡ sorted ending_cmp ends.old.items) }
    ensures room { vec_capacity ends.old ≤ vec_capacity ends.new }
{
    ends.sort_by(|a, b| compare_endings(a, b))?;
    Ok(())
}

/// The ends of these versions, sorted, with room for one of each version.
pub(crate) fn endings_in(alloc: Global, versions: &[Version]) -> Result<Vec<Ending>, Memory>
    ensures items { IfOk result (λ ends. ends.items ≡ endings_in versions.now) }
    ensures room { IfOk result (λ ends. length versions.now ≤ vec_capacity ends) }
{
    let mut ends = endings_of(alloc, versions)?;
    sort_endings(&mut ends)?;
    Ok(ends)
}
