//! When tables were created and dropped, and columns dropped, by the rows of the system tables.

ghost use Rattle.std.specs.Prelude.{◌≡◌, IfOk, IsSorted};
ghost use Rattle.std.specs.List.{filter_map, list_any};
ghost use Rattle.spec_rules.specs.Rows.{catalog_rows};
ghost use Rattle.spec_rules.specs.WhileTheTableIsThere as there;
ghost use Rattle.audit_columns.specs.Positions.{Rank as RankOf};
ghost use Rattle.audit_rules.specs.FirstRanks.{happened_cmp, has_happened, is_past as spec_is_past};
ghost use Rattle.audit_rules.specs.HappenedLists as spec;
ghost use Rattle.audit_rules.specs.HappenedLists.{AreTimes};
ghost use Rattle.audit_rules.specs.Seen.{row_of, seen};

use crate::first_ranks::{Happened, Thing, first_rank, sort_by_thing};
use crate::rows::{PlacedVersion, has_no_change, item_of, number, placed_rows, says_dropped};
use audit_columns::{Positions, Rank};
use audit_definitions::table_of;
use base_types::Memory;
use sql_types::Version;
use std::alloc::Global;
use std::marker::Model;

/// What a row of a system table may say.
#[derive(Clone, Copy, Debug)]
pub enum What {
    /// The table was created.
    Created,
    /// The table was dropped.
    Gone,
    /// The column was dropped.
    Dropped,
    /// The column isn't in the key.
    OutsideKey,
}

/// When each thing happened, by the thing and then by place.
#[derive(Debug, Drop)]
pub struct Times {
    created: Vec<Happened>,
    gone: Vec<Happened>,
    dropped: Vec<Happened>,
    outside_key: Vec<Happened>,
}

impl Model for Times {
    ghost use Rattle.audit_rules.specs.HappenedLists.{AllSorted, HappenedLists};

    ghost Value = { HappenedLists };

    ghost view = { λ t. record {
      created = t.created.items;
      gone = t.gone.items;
      dropped = t.dropped.items;
      outside_key = t.outside_key.items;
    } };

    ghost invariant = { λ t. AllSorted (record {
      created = t.created.items;
      gone = t.gone.items;
      dropped = t.dropped.items;
      outside_key = t.outside_key.items;
    }) };
}

fn says_gone(row: &PlacedVersion) -> bool
    ensures { result ≡ there.says_gone (row_of row.now) }
{
    let kind = number(row, 3);
    kind == 3 || kind == 4
}

fn tells(what: What, row: &PlacedVersion) -> bool
    ensures { result ≡ spec.tells what (row_of row.now) }
{
    match what {
        What::Created => has_no_change(0, row),
        What::Gone => says_gone(row),
        What::Dropped => says_dropped(row),
        What::OutsideKey => number(row, 8) == 0,
    }
}

fn item_in(what: What, row: &PlacedVersion) -> i128
    ensures { result ≡ spec.item_in what (row_of row.now) }
{
    match what {
        What::Created | What::Gone => 0,
        What::Dropped | What::OutsideKey => item_of(row),
    }
}

fn happened_to(what: What, row: &PlacedVersion, table: Option<i128>) -> Option<Happened>
    ensures { result ≡ spec.happened_to what (row_of row.now) table }
{
    match table {
        Some(table) if tells(what, row) => Some(Happened {
            thing: Thing {
                table,
                item: item_in(what, row),
            },
            rank: row.place,
        }),
        _ => None,
    }
}

fn happened(what: What, row: &PlacedVersion) -> Option<Happened>
    ensures { result ≡ spec.happened what (row_of row.now) }
{
    happened_to(what, row, table_of(row.version))
}

fn unsorted(alloc: Global, what: What, rows: &[PlacedVersion]) -> Result<Vec<Happened>, Memory>
    ensures { IfOk result (λ all. all.items ≡ filter_map (spec.happened what) (seen rows.now)) }
{
    let mut all = Vec::new(alloc);
    for row in rows {
        if let Some(one) = happened(what, row) {
            all.push(one)?;
        }
    }
    Ok(all)
}

fn all_happened(alloc: Global, what: What, rows: &[PlacedVersion]) -> Result<Vec<Happened>, Memory>
    ensures all { IfOk result (λ all. all.items ≡ spec.all_happened what (seen rows.now)) }
    ensures sorted { IfOk result (λ all. IsSorted happened_cmp all.items) }
{
    let mut all = unsorted(alloc, what, rows)?;
    sort_by_thing(&mut all)?;
    Ok(all)
}

impl Times {
    /// By these base rows of the system tables. Sorts what they say.
    pub fn of(
        alloc: Global,
        positions: &Positions,
        first: &[Version],
        second: &[Version],
    ) -> Result<Times, Memory>
        ensures { IfOk result (AreTimes (catalog_rows positions.now first.now second.now)) }
    {
        let tables = placed_rows(alloc, positions, first)?;
        let items = placed_rows(alloc, positions, second)?;
        Ok(Times {
            created: all_happened(alloc, What::Created, &tables)?,
            gone: all_happened(alloc, What::Gone, &tables)?,
            dropped: all_happened(alloc, What::Dropped, &items)?,
            outside_key: all_happened(alloc, What::OutsideKey, &items)?,
        })
    }

    /// The first place at which the table was created. Takes an ordered search.
    pub(crate) fn created_at(&self, table: &Thing) -> Option<Rank>
        ensures { (before : RankOf) → spec_is_past result before
            ≡ list_any (has_happened table.now before) self.now.created }
    {
        first_rank(&self.created, table)
    }

    /// The first place at which the table was dropped. Takes an ordered search.
    pub(crate) fn gone_at(&self, table: &Thing) -> Option<Rank>
        ensures { (before : RankOf) → spec_is_past result before
            ≡ list_any (has_happened table.now before) self.now.gone }
    {
        first_rank(&self.gone, table)
    }

    /// The first place at which the column was dropped. Takes an ordered search.
    pub(crate) fn dropped_at(&self, column: &Thing) -> Option<Rank>
        ensures { (before : RankOf) → spec_is_past result before
            ≡ list_any (has_happened column.now before) self.now.dropped }
    {
        first_rank(&self.dropped, column)
    }

    /// The first place at which a row says that the column isn't in the key. Takes an ordered search.
    pub(crate) fn outside_key_at(&self, column: &Thing) -> Option<Rank>
        ensures { (before : RankOf) → spec_is_past result before
            ≡ list_any (has_happened column.now before) self.now.outside_key }
    {
        first_rank(&self.outside_key, column)
    }
}
