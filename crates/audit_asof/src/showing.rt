//! SELECT over tables that are only read.

ghost use Rattle.std.specs.Prelude.{ℕ, ◌≡◌, ◌<◌, IfSome, option_map};
ghost use Rattle.spec_model.specs.Catalog as spec;
ghost use Rattle.spec_model.specs.Refusals.{MatchesUnlessOom};
ghost use Rattle.sql_reference.specs.Ids.{IdsRise};
ghost use Rattle.sql_reference.specs.StatementResult.{rows_shown};

use crate::opened_table::OpenedTable;
use base_types::{Items, Name};
use sql_check::{check_select, part_named};
use sql_parts::Columns;
use sql_select::query_rows;
use sql_types::{Part, Row, Select};
use sql_value::Refusal;
use std::alloc::Global;

/// The table, and the part of it, that a name stands for.
#[tactic(auto, unfolding(spec_model::specs::Catalog::find_part))]
fn find<'a>(tables: &'a [OpenedTable], name: &Name) -> Option<(&'a OpenedTable, Part)>
    ensures part { option_map (λ p. (p.0.now.def, p.1)) result
        ≡ spec.find_part (spec.defs_of tables.now) name.now }
    ensures versions { (last : ℕ) → IdsRise last (spec.defs_of tables.now)
        → IfSome result (λ p. (last < p.0.now.def.id)
        × (p.0.now.versions ≡ spec.versions_of tables.now p.0.now.def.id)) }
{
    match tables {
        [] => None,
        [table, rest @ ..] => match part_named(table.def(), name) {
            Some(part) => Some((table, part)),
            None => find(rest, name),
        },
    }
}

/// The rows that a SELECT shows of these tables, whose ids rise. The refusals are those of its checks and of its
/// expressions, besides want of memory.
#[tactic(auto, unfolding(spec_model::specs::Query::query_check))]
pub(crate) fn show(alloc: Global, tables: &[OpenedTable], q: &Select) -> Result<Items<Row>, Refusal>
    requires { IdsRise 0 (spec.defs_of tables.now) }
    ensures { MatchesUnlessOom (rows_shown tables.now q.now) result }
{
    let Some((table, part)) = find(tables, &q.table) else {
        return Err(Refusal::NoSuchTable);
    };
    let columns = Columns::of(table.def(), part);
    check_select(q, &columns)?;
    let rows = query_rows(alloc, q, &table.keyed(), part, table)?;
    Ok(Items::from_vec(rows))
}
