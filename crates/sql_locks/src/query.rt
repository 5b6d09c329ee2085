//! What SELECT wants.

ghost use Rattle.std.specs.Prelude.{◌≡◌, IfOk};
ghost use Rattle.spec_model.specs.Locks as spec;

use crate::rows::{by_key_or_whole, whole};
use base_types::Memory;
use sql_parts::{KeyedTable, key_fixed};
use sql_types::{LockRequest, Mode, Part, Select};
use std::alloc::Global;

/// What a SELECT on a part of a table wants in the table's cell: where the condition fixes the key of the base
/// table, an intent on the table and S on the key, and else S on the table. A system table is read in the
/// catalog alone.
#[tactic(auto, unfolding(spec_model::specs::Locks::query_requests))]
pub fn query_requests(
    alloc: Global,
    table: &KeyedTable,
    part: Part,
    q: &Select,
) -> Result<Vec<LockRequest>, Memory>
    ensures { IfOk result (λ requests. requests.items ≡ spec.query_requests (table.now, part) q.now) }
{
    match part {
        Part::Base => by_key_or_whole(alloc, Mode::IS, Mode::S, key_fixed(alloc, table, &q.cond)?),
        Part::History | Part::View => Ok(Vec::from_array(alloc, [whole(Mode::S)])?),
        Part::System => Ok(Vec::new(alloc)),
    }
}
