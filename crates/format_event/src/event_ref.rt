//! Events whose values are where they lie, and writing their leaves.

ghost use Rattle.std.specs.Prelude.{◌≡◌, ◌≤◌, ◌++◌, is_some, take, length, filter, flat_map, OnOk, OnErr};
ghost use Rattle.base_fields.specs.Fields.{u16_field};
ghost use Rattle.spec_model.specs.Events.{fields_of};
ghost use Rattle.format_event.specs.EventRef.{event_of};
ghost use Rattle.format_event.specs.Leaf.{encoded, event_bytes, columns_bytes, column_bytes};
ghost use Rattle.format_event.specs.TypedBytes.{AreValues, IsTyped, typed_bytes};

use crate::leaf::{put_head, put_start};
use crate::typed::put_typed;
use base_fields::put_u16;
use base_types::{Memory, TableId};
use sql_types::{EventId, TypedValue};

/// A view of an event, with the values of its version where they lie.
#[derive(Clone, Copy, Debug)]
pub struct EventRef<'a> {
    /// The transaction that started or ended the version, and the number of the event there.
    pub id: EventId,
    /// For an end, the start of the version.
    pub ends: Option<EventId>,
    /// The values of the version, one for each column; NULL is none.
    pub values: &'a [Option<TypedValue>],
    pub table: TableId,
}

/// Appends the leaf of an event, which leaves its NULL columns out, with no copy of a value. The only error is
/// want of memory, and then the bytes are as they were.
#[tactic(auto, using(crate::proofs::Values::leaf_is))]
pub fn write_leaf(e: &EventRef, out: &mut Vec<u8>) -> Result<(), Memory>
    requires { AreValues e.now.values.now }
    ensures ok { OnOk result (out.new.items ≡ out.old.items ++ event_bytes (event_of e.now)) }
    ensures err { OnErr result (out.new.items ≡ out.old.items) }
{
    let before = out.len();
    let written = put_parts(e, out);
    if written.is_err() {
        out.truncate(before);
    }
    written
}

fn put_parts(e: &EventRef, out: &mut Vec<u8>) -> Result<(), Memory>
    requires { AreValues e.now.values.now }
    ensures ok { OnOk result (out.new.items ≡ out.old.items ++ encoded (event_of e.now)) }
    ensures grows { take (length out.old.items) out.new.items ≡ out.old.items }
{
    put_head(e.table, e.ends, e.id, out)?;
    put_start(e.ends, out)?;
    put_values(e.values, out)
}

// How many of the values aren't NULL, and these, each with its ordinal.
fn put_values(values: &[Option<TypedValue>], out: &mut Vec<u8>) -> Result<(), Memory>
    requires { AreValues values.now }
    ensures ok { OnOk result (out.new.items ≡ out.old.items ++ columns_bytes (fields_of values.now)) }
    ensures grows { take (length out.old.items) out.new.items ≡ out.old.items }
{
    put_u16(out, told_of(values) as u16)?;
    put_each(values, out)
}

fn told_of(values: &[Option<TypedValue>]) -> usize
    ensures count { result ≡ length (fields_of values.now) }
    ensures bound { result ≤ length values.now }
{
    some_of(values)
}

fn some_of(values: &[Option<TypedValue>]) -> usize
    ensures { result ≡ length (filter is_some values.now) }
{
    values.iter().filter(|value| value.is_some()).count()
}

#[tactic(auto, using(crate::proofs::Growing::still_first))]
fn put_each(values: &[Option<TypedValue>], out: &mut Vec<u8>) -> Result<(), Memory>
    requires { AreValues values.now }
    ensures ok { OnOk result (out.new.items ≡ out.old.items ++ flat_map column_bytes (fields_of values.now)) }
    ensures grows { take (length out.old.items) out.new.items ≡ out.old.items }
{
    for (place, value) in values.iter().enumerate() {
        if let Some(typed) = value {
            put_field((place + 1) as u16, typed, out)?;
        }
    }
    Ok(())
}

fn put_field(ordinal: u16, typed: &TypedValue, out: &mut Vec<u8>) -> Result<(), Memory>
    requires { IsTyped typed.now }
    ensures ok { OnOk result (out.new.items ≡ out.old.items ++ (u16_field ordinal ++ typed_bytes typed.now)) }
    ensures grows { take (length out.old.items) out.new.items ≡ out.old.items }
{
    put_u16(out, ordinal)?;
    put_typed(typed, out)
}
