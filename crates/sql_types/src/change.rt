//! What a statement does to the versions of a table.

use crate::version::{EventId, TypedValue};
use sql_value::Items;

/// The start or the end of a version, without the event that it will be.
#[derive(Debug, Drop)]
pub enum Change {
    /// A version with these values starts.
    Starts(Items<Option<TypedValue>>),
    /// The version that this event started ends.
    Ends(EventId),
}
