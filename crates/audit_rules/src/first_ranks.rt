//! The first of the ranks at which something happened to a thing, found by halving.

ghost use Rattle.std.specs.Prelude.{◌≡◌, IsSorted, OnOk};
ghost use Rattle.std.specs.List.{list_any};
ghost use Rattle.spec_model.specs.Lists.{sorted};
ghost use Rattle.audit_rules.specs.FirstRanks as spec;
ghost use Rattle.audit_columns.specs.Positions.{Rank as RankOf};

use audit_columns::Rank;
use base_types::Memory;
use std::cmp::Ordering;

/// An item of a table; the table itself, where the item is 0.
#[derive(Clone, Copy, Debug)]
pub struct Thing {
    pub table: i128,
    pub item: i128,
}

/// That something happened to a thing at a rank.
#[derive(Clone, Copy, Debug)]
pub struct Happened {
    pub thing: Thing,
    pub rank: Rank,
}

/// Sorts by the thing, and then by rank.
pub(crate) fn sort_by_thing(happened: &mut Vec<Happened>) -> Result<(), Memory>
    ensures { OnOk result (happened.new.items ≡ sorted spec.happened_cmp happened.old.items) }
{
    happened.sort_by(|a, b| compare(a, b))?;
    Ok(())
}

fn compare(a: &Happened, b: &Happened) -> Ordering
    ensures { result ≡ spec.happened_cmp a.now b.now }
{
    compare_things(&a.thing, &b.thing).then(a.rank.cmp(&b.rank))
}

fn compare_things(a: &Thing, b: &Thing) -> Ordering
    ensures { result ≡ spec.thing_cmp a.now b.now }
{
    a.table.cmp(&b.table).then(a.item.cmp(&b.item))
}

/// The first rank at which it happened to the thing. Takes an ordered search.
pub(crate) fn first_rank(happened: &[Happened], thing: &Thing) -> Option<Rank>
    requires { IsSorted spec.happened_cmp happened.now }
    ensures { (before : RankOf) → spec.is_past result before
        ≡ list_any (spec.has_happened thing.now before) happened.now }
{
    let at = happened.partition_point(|one| compare_things(&one.thing, thing).is_lt());
    match happened.get(at) {
        Some(one) => rank_if(one, thing),
        None => None,
    }
}

/// The rank, if it is of the thing.
fn rank_if(one: &Happened, thing: &Thing) -> Option<Rank>
    ensures { (before : RankOf) → spec.is_past result before ≡ spec.has_happened thing.now before one.now }
{
    if one.thing.table == thing.table && one.thing.item == thing.item {
        Some(one.rank)
    } else {
        None
    }
}
