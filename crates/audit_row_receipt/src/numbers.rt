//! The numbers of events, by their leaves.

ghost use Rattle.std.specs.Prelude.{◌≡◌, ◌<◌, Some, length, IfOk};
ghost use Rattle.std.specs.Bool.{Decides};
ghost use Rattle.std.specs.List.{slice_get};
ghost use Rattle.audit_row_receipt.specs.RowsMade.{IsLeafOf, IsPlaceOf, Numbers};

use base_types::{Blob, Memory};
use format_event::read_event;
use std::alloc::Global;

/// The place, from 0, of the first leaf that is of an event with a number.
pub(crate) fn place_of(alloc: Global, seq: u64, leaves: &[Blob]) -> Result<Option<usize>, Memory>
    ensures { IfOk result (λ place. IsPlaceOf seq leaves.now place) }
{
    for (place, leaf) in leaves.iter().enumerate() {
        if has_number(alloc, seq, leaf.bytes())? {
            return Ok(Some(place));
        }
    }
    Ok(None)
}

fn has_number(alloc: Global, seq: u64, leaf: &[u8]) -> Result<bool, Memory>
    ensures { IfOk result (λ yes. Decides yes (IsLeafOf seq leaf.now)) }
{
    let found = number_of(alloc, leaf)?;
    Ok(is_number(found, seq))
}

fn number_of(alloc: Global, leaf: &[u8]) -> Result<Option<u64>, Memory>
    ensures { IfOk result (λ number. Numbers leaf.now number) }
{
    match read_event(alloc, leaf)? {
        Some(event) => Ok(Some(event.seq)),
        None => Ok(None),
    }
}

fn is_number(found: Option<u64>, seq: u64) -> bool
    ensures { Decides result (found ≡ Some seq) }
{
    found == Some(seq)
}

/// The leaf at a place.
pub(crate) fn leaf_at(leaves: &[Blob], place: usize) -> &Blob
    requires { place < length leaves.now }
    ensures { slice_get leaves.now place ≡ Some result.now }
{
    &leaves[place]
}
