//! SELECT on a table of the system.

ghost use Rattle.std.specs.Prelude.{◌≡◌, IfOk};
ghost use Rattle.spec_model.specs.Effect.{query_rows};
ghost use Rattle.spec_model.specs.Parts.{columns_of, rows_of};
ghost use Rattle.spec_model.specs.Query.{select_check};
ghost use Rattle.spec_model.specs.Refusals.{MatchesUnlessOom, and_then};
ghost use Rattle.spec_model.specs.Where.{key_fixed as spec_key_fixed};

use base_types::{Items, Memory};
use sql_check::check_select;
use sql_parts::{Columns, KeyedTable, key_fixed, key_places, part_rows, shown};
use sql_select::select;
use sql_types::{Part, Row, Select, TableDef, Version};
use sql_value::Refusal;
use std::alloc::Global;

// The rows that a SELECT reads: those of the part, or the one of a key that the condition fixes.
fn rows_read(
    alloc: Global,
    def: &TableDef,
    part: Part,
    versions: &[Version],
    q: &Select,
) -> Result<Vec<Row>, Memory>
    ensures { IfOk result (λ rows. rows.items
        ≡ rows_of def.now part (spec_key_fixed def.now.columns q.now.cond) versions.now) }
{
    let places = key_places(alloc, def.columns.as_slice())?;
    let keyed = KeyedTable::new(def, &places);
    let key = key_fixed(alloc, &keyed, &q.cond)?;
    part_rows(alloc, &keyed, part, &key, versions)
}

/// The rows that a SELECT shows of a part of a table with these versions, or why it is refused.
#[tactic(auto, unfolding(spec_model::specs::Effect::query_rows))]
pub(crate) fn show(
    alloc: Global,
    def: &TableDef,
    part: Part,
    versions: &[Version],
    q: &Select,
) -> Result<Items<Row>, Refusal>
    ensures { MatchesUnlessOom (and_then (select_check (columns_of def.now part) q.now)
        (λ passed. query_rows q.now (def.now, part) versions.now)) result }
{
    let columns = Columns::of(def, part);
    check_select(q, &columns)?;
    let rows = rows_read(alloc, def, part, versions, q)?;
    let dropped = def.dropped.as_slice();
    let rows = select(alloc, q, &columns, dropped, shown(def, part), rows)?;
    Ok(Items::from_vec(rows))
}
