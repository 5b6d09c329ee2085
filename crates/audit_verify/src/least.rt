//! The least of some starts and ends.

ghost use Rattle.std.specs.Prelude.{◌≡◌};
ghost use Rattle.law_catalog_rows.specs.Least.{lesser};
ghost use Rattle.spec_verify.specs.Entries.{table_event_cmp, event_place};

use base_types::TableId;
use spec_verify::Place;
use sql_types::EventId;
use std::cmp::Ordering;

/// A table, and a start or an end of a version there.
pub type TableEvent = (TableId, EventId);

/// The lesser of the least so far and another: by the table, then by the transaction, then by the number.
pub(crate) fn lesser(best: Option<TableEvent>, event: TableEvent) -> Option<TableEvent>
    ensures { result ≡ lesser table_event_cmp best event }
{
    match best {
        Some(known) if known.cmp(&event) != Ordering::Greater => Some(known),
        _ => Some(event),
    }
}

pub(crate) fn event_place(event: Option<TableEvent>) -> Option<Place>
    ensures { result ≡ event_place event }
{
    match event {
        Some((table, EventId { tx, seq })) => Some(Place::Event { table, tx, seq }),
        None => None,
    }
}
