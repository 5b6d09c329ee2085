//! A SELECT over the versions of a table.

ghost use Rattle.std.specs.Prelude.{map};
ghost use Rattle.spec_model.specs.Effect as spec;
ghost use Rattle.spec_model.specs.Keys.{live_by_key};
ghost use Rattle.spec_model.specs.Lists.{checked_filter};
ghost use Rattle.spec_model.specs.Parts.{base_row, rows_of};
ghost use Rattle.spec_model.specs.Where.{holds, key_fixed as spec_key_fixed};
ghost use Rattle.sql_select.specs.Answers.{ItemsMatchUnlessOom};

use crate::filtering::{matching_rows, taken};
use crate::selecting::show_matching;
use sql_parts::{Columns, KeyedTable, LiveVersions, key_fixed, part_rows, shown};
use sql_types::{Key, Part, Row, Select, Version};
use sql_value::{Expr, Refusal};
use std::alloc::Global;

/// What a SELECT shows of a part of a table, where its versions that stand are found as `versions` finds
/// them: of a base table those of the key that the condition fixes, or else all. Refused as `query_rows`
/// of `spec_model` refuses, or for want of memory.
#[tactic(auto, unfolding(spec_model::specs::Effect::query_rows, spec_model::specs::Query::selected))]
pub fn query_rows<R: LiveVersions>(
    alloc: Global,
    q: &Select,
    table: &KeyedTable,
    part: Part,
    versions: &R,
) -> Result<Vec<Row>, Refusal>
    requires { R.are_of versions.now table.now }
    ensures { ItemsMatchUnlessOom (spec.query_rows q.now (table.now, part) (R.versions versions.now)) result }
{
    let def = table.def();
    let columns = Columns::of(def, part);
    let key = key_fixed(alloc, table, &q.cond)?;
    let taken = part_taken(alloc, table, part, &columns, &q.cond, &key, versions)?;
    let dropped = def.dropped.as_slice();
    show_matching(alloc, q, &columns, dropped, shown(def, part), taken)
}

/// The rows of a part of a table that a condition takes.
#[tactic(auto, unfolding(spec_model::specs::Parts::rows_of))]
fn part_taken<R: LiveVersions>(
    alloc: Global,
    table: &KeyedTable,
    part: Part,
    columns: &Columns,
    cond: &Option<Expr>,
    key: &Option<Key>,
    versions: &R,
) -> Result<Vec<Row>, Refusal>
    requires { R.are_of versions.now table.now }
    ensures { ItemsMatchUnlessOom
        (checked_filter (holds columns.now cond.now)
        (rows_of table.now part key.now (R.versions versions.now))) result }
{
    match part {
        Part::Base => live_rows_taken(alloc, table, columns, cond, key, versions),
        Part::System => live_rows_taken(alloc, table, columns, cond, &None, versions),
        Part::History => other_taken(alloc, table, part, columns, cond, key, versions.all()),
        Part::View => other_taken(alloc, table, part, columns, cond, key, versions.all()),
    }
}

/// The rows that stand and that a condition takes, by key: those of one key, or all.
fn live_rows_taken<R: LiveVersions>(
    alloc: Global,
    table: &KeyedTable,
    columns: &Columns,
    cond: &Option<Expr>,
    key: &Option<Key>,
    versions: &R,
) -> Result<Vec<Row>, Refusal>
    requires { R.are_of versions.now table.now }
    ensures { ItemsMatchUnlessOom
        (checked_filter (holds columns.now cond.now)
        (map (base_row table.now.columns)
        (live_by_key table.now.columns key.now (R.versions versions.now)))) result }
{
    let live_by_key = versions.in_key_order(alloc, table, key)?;
    matching_rows(alloc, table.columns(), columns, cond, &live_by_key)
}

/// The rows of a part of a table that a condition takes. All rows of the part are copied.
fn other_taken(
    alloc: Global,
    table: &KeyedTable,
    part: Part,
    columns: &Columns,
    cond: &Option<Expr>,
    key: &Option<Key>,
    versions: &[Version],
) -> Result<Vec<Row>, Refusal>
    ensures { ItemsMatchUnlessOom
        (checked_filter (holds columns.now cond.now) (rows_of table.now part key.now versions.now)) result }
{
    let rows = part_rows(alloc, table, part, key, versions)?;
    taken(alloc, columns, cond, rows)
}
