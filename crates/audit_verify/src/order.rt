//! The versions of a table by key, and those of a key by start.
//!
//! Sorted so, the versions of one key stand side by side. One pass from the first to the last then knows of
//! each version the latest of the earlier ones of its key, and whether one of them has no end. It has to know
//! both, and the neighbour alone wouldn't do: where one version has no end, each later one of its key without
//! an end is at fault, also behind others that have ended, and the least fault is the one of the least
//! transaction, which needn't be the first in the ledger.

ghost use Rattle.std.specs.Prelude.{◌≡◌, ◌<◌, ◌&&◌, ◌||◌, ◌++◌, ◌∷◌, [], if◌then◌else◌, IsSorted, List, IfOk, IfSome, OnOk, map, length, get_or, option_map, is_none, unwrap_or};
ghost use Rattle.std.specs.Borrow.{Bor};
ghost use Rattle.std.specs.List.{All, AllByRecursion, list_all};
ghost use Rattle.std.specs.Option.{option_copied};
ghost use Rattle.std.specs.Ordering.{int_cmp, is_eq};
ghost use Rattle.sql_value.specs.declared.value.Value.TheVariants.{Null, Num};
ghost use Rattle.sql_types.specs.declared.entry.TxEntry.{TxEntry};
ghost use Rattle.sql_types.specs.declared.version.Version.{Version as VersionOf};
ghost use Rattle.spec_model.specs.Keys.{key_at};
ghost use Rattle.spec_model.specs.Lists.{sorted};
ghost use Rattle.spec_model.specs.Rows.{values_of};
ghost use Rattle.law_catalog_rows.specs.Least.{least_from, lesser};
ghost use Rattle.spec_rules.specs.Rows.{CatalogRows};
ghost use Rattle.audit_rules.specs.Times.{AreTableTimes};
ghost use Rattle.spec_verify.specs.Entries.{table_event_cmp};
ghost use Rattle.spec_verify.specs.Versions.{with_columns};
ghost use Rattle.audit_verify.specs.Order as spec;
ghost use Rattle.audit_columns.specs.Positions.{rank_of};
ghost use Rattle.audit_columns.specs.Runs.{Neighbours};
ghost use Rattle.audit_verify.specs.declared.order.VersionWithRanks.{VersionWithRanks as RankedVersion};

use crate::least::{TableEvent, lesser};
use audit_columns::{Positions, Rank, has_columns};
use audit_rules::{TableTimes, VersionInTime};
use base_types::{Memory, TableId};
use sql_parts::{KeyedTable, Valued, compare_by_key};
use sql_types::{EventId, TableRows, Version};
use sql_value::Value;
use std::alloc::Global;
use std::cmp::Ordering;

/// A version with the ranks of its start and its end.
#[derive(Clone, Copy, Debug)]
pub struct VersionWithRanks<'a> {
    pub version: &'a Version,
    pub start: Rank,
    pub end: Option<Rank>,
    /// Its key, where that is one whole number of 64 bits: such keys are compared without a look at the version.
    pub key_number: Option<i64>,
}

/// What is known of the earlier versions of a version's key.
#[derive(Clone, Copy, Debug)]
pub struct EarlierVersions<'a> {
    /// The end of the latest of them, if there are some.
    pub latest: Option<Option<Rank>>,
    /// The latest of them.
    pub last: Option<&'a Version>,
    /// Whether one of them has no end.
    pub any_open: bool,
}

/// The versions that have the table's columns: those of the base, and behind them those of the history.
pub(crate) fn ranked_versions<'a>(
    alloc: Global,
    positions: &Positions,
    table: &KeyedTable,
    rows: &'a TableRows,
) -> Result<Vec<VersionWithRanks<'a>>, Memory>
    requires base { All (spec.IsStarted positions.now) rows.now.base }
    requires history { All (spec.IsStarted positions.now) rows.now.history }
    ensures { IfOk result (λ ranked. spec.AreRanked positions.now table.now.columns
        (with_columns table.now.columns (rows.now.base ++ rows.now.history)) ranked.items) }
{
    let mut ranked = Vec::new(alloc);
    add_ranked(positions, table, rows.base.as_slice(), &mut ranked)?;
    add_ranked(positions, table, rows.history.as_slice(), &mut ranked)?;
    Ok(ranked)
}

/// Adds those of these versions that have the columns.
fn add_ranked<'a>(
    positions: &Positions,
    table: &KeyedTable,
    versions: &'a [Version],
    ranked: &mut Vec<VersionWithRanks<'a>>,
) -> Result<(), Memory>
    requires { All (spec.IsStarted positions.now) versions.now }
    ensures versions { OnOk result (map spec.version_of ranked.new.items
        ≡ map spec.version_of ranked.old.items ++ with_columns table.now.columns versions.now) }
    ensures ranks { OnOk result (AllByRecursion (spec.IsRanked positions.now) ranked.old.items
        → AllByRecursion (spec.IsRanked positions.now) ranked.new.items) }
    ensures numbers { OnOk result (AllByRecursion (spec.IsNumbered table.now.columns) ranked.old.items
        → AllByRecursion (spec.IsNumbered table.now.columns) ranked.new.items) }
{
    for version in versions {
        add_one(positions, table, version, ranked)?;
    }
    Ok(())
}

/// Adds the version, if it has the columns.
fn add_one<'a>(
    positions: &Positions,
    table: &KeyedTable,
    version: &'a Version,
    ranked: &mut Vec<VersionWithRanks<'a>>,
) -> Result<(), Memory>
    requires { spec.IsStarted positions.now version.now }
    ensures versions { OnOk result (map spec.version_of ranked.new.items
        ≡ map spec.version_of ranked.old.items ++ with_columns table.now.columns (version.now ∷ [])) }
    ensures ranks { OnOk result (AllByRecursion (spec.IsRanked positions.now) ranked.old.items
        → AllByRecursion (spec.IsRanked positions.now) ranked.new.items) }
    ensures numbers { OnOk result (AllByRecursion (spec.IsNumbered table.now.columns) ranked.old.items
        → AllByRecursion (spec.IsNumbered table.now.columns) ranked.new.items) }
{
    if has_columns(table.columns(), version.values.as_slice()) {
        ranked.push(ranked_one(positions, table, version))?;
    }
    Ok(())
}

fn ranked_one<'a>(
    positions: &Positions,
    table: &KeyedTable,
    version: &'a Version,
) -> VersionWithRanks<'a>
    requires { spec.IsStarted positions.now version.now }
    ensures version { result.version.now ≡ version.now }
    ensures ranks { spec.IsRanked positions.now result }
    ensures number { spec.IsNumbered table.now.columns result }
{
    VersionWithRanks {
        version,
        start: positions.rank_of(version.start),
        end: rank_of_end(positions, version.end),
        key_number: key_number(table.key(), version),
    }
}

/// The key of a version at these places, where it is one whole number of 64 bits.
#[tactic(auto, unfolding(spec_model::specs::Keys::key_at))]
fn key_number(key: &[usize], version: &Version) -> Option<i64>
    ensures { IfSome result (λ n. key_at key.now (values_of version.now) ≡ Num 0 n ∷ []) }
{
    match key {
        [place] => whole_number(version.value_at(*place)),
        _ => None,
    }
}

fn whole_number(value: Option<&Value>) -> Option<i64>
    ensures { IfSome result (λ n. unwrap_or (option_copied value.entry) Null ≡ Num 0 n) }
{
    match value {
        Some(Value::Num { v, s: 0 }) => i64::try_from(*v).ok(),
        _ => None,
    }
}

fn rank_of_end(positions: &Positions, end: Option<EventId>) -> Option<Rank>
    ensures { result ≡ option_map (rank_of positions.now) end }
{
    match end {
        Some(end) => Some(positions.rank_of(end)),
        None => None,
    }
}

/// Sorts the versions by key, and those of a key by start.
#[tactic(auto, using(crate::proofs::KeyNumbers::by_numbers))]
pub(crate) fn sort_in_runs(
    table: &KeyedTable,
    ranked: &mut Vec<VersionWithRanks>,
) -> Result<(), Memory>
    requires { AllByRecursion (spec.IsNumbered table.now.columns) ranked.old.items }
    ensures { OnOk result (ranked.new.items
        ≡ sorted (spec.ranked_cmp table.now.columns) ranked.old.items) }
{
    if have_numbers(ranked) {
        sort_by_numbers(ranked)?;
        return Ok(());
    }
    sort_by_keys(table, ranked)
}

fn have_numbers(ranked: &[VersionWithRanks]) -> bool
    ensures { result ≡ list_all spec.has_number ranked.now }
{
    ranked.iter().all(|version| version.key_number.is_some())
}

fn sort_by_numbers(ranked: &mut Vec<VersionWithRanks>) -> Result<(), Memory>
    ensures { OnOk result (ranked.new.items ≡ sorted spec.numbered_cmp ranked.old.items) }
{
    ranked.sort_by(|a, b| compare_numbered(a, b))?;
    Ok(())
}

fn sort_by_keys(table: &KeyedTable, ranked: &mut Vec<VersionWithRanks>) -> Result<(), Memory>
    ensures { OnOk result (ranked.new.items
        ≡ sorted (spec.ranked_cmp table.now.columns) ranked.old.items) }
{
    ranked.sort_by(|a, b| compare_ranked(table, a, b))?;
    Ok(())
}

/// By the numbers that are the keys, and then by start.
fn compare_numbered(a: &VersionWithRanks, b: &VersionWithRanks) -> Ordering
    ensures { result ≡ spec.numbered_cmp a.now b.now }
{
    match compare_numbers(a, b) {
        Ordering::Equal => compare_starts(a, b),
        order => order,
    }
}

/// By the numbers that are the keys.
fn compare_numbers(a: &VersionWithRanks, b: &VersionWithRanks) -> Ordering
    ensures { result ≡ int_cmp (spec.number_of a.now) (spec.number_of b.now) }
{
    number_of(a).cmp(&number_of(b))
}

/// The number that is the key; 0 where it is none.
fn number_of(version: &VersionWithRanks) -> i64
    ensures { result ≡ spec.number_of version.now }
{
    version.key_number.unwrap_or(0)
}

/// By key, and then by start.
fn compare_ranked(table: &KeyedTable, a: &VersionWithRanks, b: &VersionWithRanks) -> Ordering
    ensures { result ≡ spec.ranked_cmp table.now.columns a.now b.now }
{
    match compare_by_key(table, a.version, b.version) {
        Ordering::Equal => compare_starts(a, b),
        order => order,
    }
}

/// By start; of two with one start the one without an end is the later.
fn compare_starts(a: &VersionWithRanks, b: &VersionWithRanks) -> Ordering
    ensures { result ≡ spec.start_cmp a.now b.now }
{
    match a.start.cmp(&b.start) {
        Ordering::Equal => openness(a.end).cmp(&openness(b.end)),
        order => order,
    }
}

fn openness(end: Option<Rank>) -> u8
    ensures { result ≡ spec.openness end }
{
    match end {
        None => 1,
        Some(_) => 0,
    }
}

/// The least start so far, and of the versions that don't stand in order among those of their key, or break a rule of
/// changes.
pub(crate) fn least_wrong(
    table: &KeyedTable,
    times: &TableTimes,
    ranked: &[VersionWithRanks],
    worst: Option<TableEvent>,
) -> Option<TableEvent>
    requires order { IsSorted (spec.ranked_cmp table.now.columns) ranked.now }
    requires numbers { All (spec.IsNumbered table.now.columns) ranked.now }
    requires table { times.now.table ≡ table.now.id }
    ensures { (entries : List TxEntry) (rows : CatalogRows) → AreTableTimes rows times.now
        → All (spec.IsRanked entries) ranked.now → result ≡ least_from table_event_cmp worst
        (spec.wrong_among entries rows table.now.id table.now.columns ranked.now ranked.now) }
{
    let mut worst = worst;
    let mut earlier = EarlierVersions {
        latest: None,
        last: None,
        any_open: false,
    };
    for k in 0..ranked.len() {
        earlier = earlier_at(table, ranked, k, &earlier);
        worst = worst_with(table, times, &ranked[k], &earlier, worst);
    }
    worst
}

/// Whether the version keeps the rules of changes, which speak of users' tables alone.
fn keeps_rules(times: &TableTimes, version: &VersionWithRanks, last: Option<&Version>) -> bool
    ensures { (entries : List TxEntry) (rows : CatalogRows) → AreTableTimes rows times.now
        → spec.IsRanked entries version.now → result ≡ spec.keeps_rules entries rows times.now.table
        (option_map (λ (v : Bor VersionOf). v.now) last.entry) version.now.version.now }
{
    times.table <= COLUMNS_ID
        || times.keeps_the_rules(&VersionInTime {
            version: version.version,
            start: version.start,
            end: version.end,
            last,
        })
}

/// The id of the table of columns; the tables up to it are the system's.
const COLUMNS_ID: TableId = 2;

/// The lesser of the least so far and the start of the version, if it doesn't stand in order or breaks a rule.
fn worst_with(
    table: &KeyedTable,
    times: &TableTimes,
    version: &VersionWithRanks,
    earlier: &EarlierVersions,
    worst: Option<TableEvent>,
) -> Option<TableEvent>
    ensures { (entries : List TxEntry) (rows : CatalogRows) → AreTableTimes rows times.now
        → spec.IsRanked entries version.now → result
        ≡ (if spec.is_ordered_after version.now earlier.now.latest earlier.now.any_open
        && spec.keeps_rules entries rows times.now.table
        (option_map (λ (v : Bor VersionOf). v.now) earlier.now.last) version.now.version.now
        then worst else lesser table_event_cmp worst (table.now.id, version.now.version.now.start)) }
{
    if is_ordered_after(version, earlier) && keeps_rules(times, version, earlier.last) {
        worst
    } else {
        lesser(worst, (table.def().id, version.version.start))
    }
}

/// What is known at this place, by what was known at the one before.
fn earlier_at<'a>(
    table: &KeyedTable,
    ranked: &[VersionWithRanks<'a>],
    k: usize,
    before: &EarlierVersions<'a>,
) -> EarlierVersions<'a>
    requires within { k < length ranked.now }
    requires order { IsSorted (spec.ranked_cmp table.now.columns) ranked.now }
    requires numbers { All (spec.IsNumbered table.now.columns) ranked.now }
    requires before { spec.KnowsBefore table.now.columns ranked.now k before.now }
    ensures { (d : RankedVersion) → spec.KnowsEarlier table.now.columns ranked.now (get_or ranked.now k d) result }
{
    if k == 0 {
        return EarlierVersions {
            latest: None,
            last: None,
            any_open: false,
        };
    }
    earlier_behind(table, &ranked[k - 1], &ranked[k], before)
}

/// What is known of the version that stands behind the last one.
fn earlier_behind<'a>(
    table: &KeyedTable,
    last: &VersionWithRanks<'a>,
    version: &VersionWithRanks,
    known: &EarlierVersions<'a>,
) -> EarlierVersions<'a>
    requires last { spec.IsNumbered table.now.columns last.now }
    requires version { spec.IsNumbered table.now.columns version.now }
    ensures { (all : List RankedVersion) → Neighbours (spec.ranked_cmp table.now.columns) all last.now version.now
        → spec.KnowsEarlier table.now.columns all last.now known.now
        → spec.KnowsEarlier table.now.columns all version.now result }
{
    if !have_same_key(table, last, version) {
        return EarlierVersions {
            latest: None,
            last: None,
            any_open: false,
        };
    }
    if compare_starts(last, version).is_lt() {
        return EarlierVersions {
            latest: Some(last.end),
            last: Some(last.version),
            any_open: is_any_open(last, known),
        };
    }
    *known
}

/// Whether two versions have one key: by their numbers, where they have some.
fn have_same_key(table: &KeyedTable, a: &VersionWithRanks, b: &VersionWithRanks) -> bool
    requires first { spec.IsNumbered table.now.columns a.now }
    requires second { spec.IsNumbered table.now.columns b.now }
    ensures { result ≡ is_eq (spec.key_order table.now.columns a.now b.now) }
{
    compare_keys(table, a, b).is_eq()
}

#[tactic(auto, using(crate::proofs::KeyNumbers::keys_by_numbers))]
fn compare_keys(table: &KeyedTable, a: &VersionWithRanks, b: &VersionWithRanks) -> Ordering
    requires first { spec.IsNumbered table.now.columns a.now }
    requires second { spec.IsNumbered table.now.columns b.now }
    ensures { result ≡ spec.key_order table.now.columns a.now b.now }
{
    if a.key_number.is_some() && b.key_number.is_some() {
        return compare_numbers(a, b);
    }
    compare_by_key(table, a.version, b.version)
}

/// Whether the version or an earlier one has no end.
fn is_any_open(version: &VersionWithRanks, known: &EarlierVersions) -> bool
    ensures { result ≡ (known.now.any_open || is_none version.now.end) }
{
    known.any_open || version.end.is_none()
}

/// Whether it has an end or each earlier one has one, it ends after it starts, and the latest of the earlier
/// ones ends before it starts.
fn is_ordered_after(version: &VersionWithRanks, earlier: &EarlierVersions) -> bool
    ensures { result ≡ spec.is_ordered_after version.now earlier.now.latest earlier.now.any_open }
{
    !(version.end.is_none() && earlier.any_open)
        && (ends_well(version) && follows(version, earlier.latest))
}

fn is_before(a: Rank, b: Rank) -> bool
    ensures { result ≡ spec.rank_before a b }
{
    a.0 < b.0 || (a.0 == b.0 && a.1 < b.1)
}

/// Whether the version ends after it starts, if it ends.
fn ends_well(version: &VersionWithRanks) -> bool
    ensures { result ≡ spec.ends_well version.now version.now.end }
{
    match version.end {
        None => true,
        Some(end) => is_before(version.start, end),
    }
}

/// Whether the version before, if there is one, ends before this one starts.
fn follows(version: &VersionWithRanks, latest: Option<Option<Rank>>) -> bool
    ensures { result ≡ spec.follows version.now latest }
{
    match latest {
        None => true,
        Some(None) => false,
        Some(Some(end)) => is_before(end, version.start),
    }
}
