//! Lists in order, and what ties in its order.

ghost use Rattle.std.specs.Prelude.{◌≡◌, OnOk, map};
ghost use Rattle.spec_model.specs.Lists.{sorted};
ghost use Rattle.spec_model.specs.Keys.{position_cmp};
ghost use Rattle.sql_parts.specs.Places.{by_key};
ghost use Rattle.spec_model.specs.Rows.{event_cmp};

use crate::keyed::KeyedTable;
use crate::keys::compare_by_key;
use base_types::Memory;
use sql_types::{EventId, Row, Version};
use sql_value::ColumnDef;

/// Sorts columns, each with its place, by their positions in the key.
pub(crate) fn sort_by_position(placed: &mut Vec<(usize, &ColumnDef)>) -> Result<(), Memory>
    ensures { OnOk result (map (λ p. (p.0, p.1.now)) placed.new.items
        ≡ sorted position_cmp (map (λ p. (p.0, p.1.now)) placed.old.items)) }
{
    placed.sort_by(|a, b| a.1.key_position.cmp(&b.1.key_position))?;
    Ok(())
}

/// Sorts rows, each with its event, by the events.
pub(crate) fn sort_by_event(shown: &mut Vec<(EventId, Row)>) -> Result<(), Memory>
    ensures { OnOk result (shown.new.items ≡ sorted (λ a b. event_cmp a.0 b.0) shown.old.items) }
{
    shown.sort_by(|a, b| a.0.cmp(&b.0))?;
    Ok(())
}

/// Sorts versions of the table by their keys.
pub(crate) fn sort_by_key(table: &KeyedTable, versions: &mut Vec<&Version>) -> Result<(), Memory>
    ensures { OnOk result (map (λ v. v.now) versions.new.items
        ≡ sorted (by_key table.now.columns) (map (λ v. v.now) versions.old.items)) }
{
    versions.sort_by(|a, b| compare_by_key(table, *a, *b))?;
    Ok(())
}
