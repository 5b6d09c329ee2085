//! SELECT.

ghost use Rattle.std.specs.Prelude.{◌≡◌, IfOk};
ghost use Rattle.spec_model.specs.Catalog.{defs_of};
ghost use Rattle.spec_model.specs.Parts.{rows_of};
ghost use Rattle.spec_model.specs.Refusals.{MatchesUnlessOom};
ghost use Rattle.spec_model.specs.Where.{key_fixed as spec_key_fixed};
ghost use Rattle.sql_reference.specs.Ids.{IdsRise};
ghost use Rattle.sql_reference.specs.StatementResult.{rows_shown};

use crate::catalog::find;
use base_types::{Items, Memory};
use sql_check::check_select;
use sql_parts::{Columns, KeyedTable, key_fixed, key_places, part_rows, shown};
use sql_select::select;
use sql_types::{Part, Row, Select, Table};
use sql_value::Refusal;
use std::alloc::Global;

/// The rows that a SELECT reads: those of the part, or the one of a key that the condition fixes.
fn rows_read(alloc: Global, table: &Table, part: Part, q: &Select) -> Result<Vec<Row>, Memory>
    ensures { IfOk result (λ rows. rows.items
        ≡ rows_of table.now.def part (spec_key_fixed table.now.def.columns q.now.cond) table.now.versions) }
{
    let places = key_places(alloc, table.def.columns.as_slice())?;
    let keyed = KeyedTable::new(&table.def, &places);
    let key = key_fixed(alloc, &keyed, &q.cond)?;
    part_rows(alloc, &keyed, part, &key, table.versions.as_slice())
}

/// The rows that a SELECT shows of these tables, whose ids rise, as an image's do. The refusals are those of
/// its checks and of its expressions, besides want of memory.
#[tactic(auto, unfolding(spec_model::specs::Query::query_check, spec_model::specs::Effect::query_rows))]
pub fn show(alloc: Global, tables: &[Table], q: &Select) -> Result<Items<Row>, Refusal>
    requires { IdsRise 0 (defs_of tables.now) }
    ensures { MatchesUnlessOom (rows_shown tables.now q.now) result }
{
    let Some((table, part)) = find(tables, &q.table) else {
        return Err(Refusal::NoSuchTable);
    };
    let columns = Columns::of(&table.def, part);
    check_select(q, &columns)?;
    let rows = rows_read(alloc, table, part, q)?;
    let dropped = table.def.dropped.as_slice();
    let rows = select(alloc, q, &columns, dropped, shown(&table.def, part), rows)?;
    Ok(Items::from_vec(rows))
}
