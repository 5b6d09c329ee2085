//! SELECT on a part of a table.

ghost use Rattle.std.specs.Prelude.{◌≡◌, ◌⊎◌, []};
ghost use Rattle.spec_model.specs.Effect as spec;
ghost use Rattle.spec_model.specs.Keys as keys;
ghost use Rattle.spec_model.specs.Refusals.{MatchesUnlessOom};

use crate::version_store::VersionStore;
use base_types::Items;
use sql_parts::KeyedTable;
use sql_select::query_rows;
use sql_types::{Part, Row, Select};
use sql_value::Refusal;
use std::alloc::Global;

/// The rows that a SELECT shows, or why it is refused.
pub(crate) fn read_rows(
    alloc: Global,
    store: &VersionStore,
    table: &KeyedTable,
    part: Part,
    q: &Select,
) -> Result<Items<Row>, Refusal>
    requires { (store.now.stored.versions ≡ []) ⊎ (store.now.stored.key ≡ keys.key_places table.now.columns) }
    ensures { MatchesUnlessOom (spec.query_rows q.now (table.now, part) store.now.stored.versions) result }
{
    let rows = query_rows(alloc, q, table, part, store)?;
    Ok(Items::from_vec(rows))
}
