//! Reading the leaf of an event.

ghost use Rattle.std.specs.Prelude.{◌≡◌, ◌<◌, Some, IfOk, IfSome};
ghost use Rattle.base_fields.specs.Readers.{times};
ghost use Rattle.base_fields.specs.Reading.{Finds, ReadsAs};
ghost use Rattle.sql_types.specs.declared.event.Event.{Event};
ghost use Rattle.format_event.specs.Leaf.{IsEvent, event_bytes, ordinals_rise, second_parameter};
ghost use Rattle.format_event.specs.LeafReading.{event_at, start_at, columns_at, column_at, type_at, coded};

use crate::value_reading::value_of;
use base_fields::{ReadError, literal, long_at, u8_at, u16_at, u32_at, u64_at, whole};
use base_types::{Items, Memory, TxId};
use sql_scalar::fits;
use sql_types::{Event, EventField, EventId};
use sql_value::{SqlType, type_parts};
use std::alloc::Global;

/// The event whose leaf these bytes are, all of them, or None exactly where they are no leaf.
pub fn read_event(alloc: Global, bytes: &[u8]) -> Result<Option<Event>, Memory>
    ensures found { IfOk result (λ read. IfSome read (λ e. IsEvent e × (bytes.now ≡ event_bytes e))) }
    ensures only { (e : Event) → IsEvent e → bytes.now ≡ event_bytes e → IfOk result (λ read. read ≡ Some e) }
{
    let found = whole(event_at(alloc, bytes))?;
    Ok(found)
}

#[tactic(auto, unfolding(crate::specs::LeafReading::event_at, crate::specs::LeafReading::head_at))]
fn event_at(alloc: Global, bytes: &[u8]) -> Result<(Event, &[u8]), ReadError>
    ensures { ReadsAs (λ x. (x.0, x.1.now)) result (event_at bytes.now) }
{
    let rest = literal(&[1], bytes)?;
    let (table, rest) = u32_at(rest)?;
    let (op, rest) = u8_at(rest)?;
    let (tx, rest) = u64_at(rest)?;
    let (seq, rest) = u64_at(rest)?;
    let (ends, rest) = start_at(op, rest)?;
    let (columns, rest) = columns_at(alloc, rest)?;
    let e = Event {
        table,
        tx,
        seq,
        ends: event_of(ends),
        columns,
    };
    Ok((e, rest))
}

// For an end, the transaction of the event that started the version, and its number there.
#[tactic(auto, unfolding(crate::specs::LeafReading::start_at))]
fn start_at(op: u8, bytes: &[u8]) -> Result<(Option<(TxId, u64)>, &[u8]), ReadError>
    ensures { ReadsAs (λ x. (x.0, x.1.now)) result (start_at op bytes.now) }
{
    match op {
        1 => Ok((None, bytes)),
        2 => {
            let (tx, rest) = u64_at(bytes)?;
            let (seq, rest) = u64_at(rest)?;
            Ok((Some((tx, seq)), rest))
        }
        _ => Err(ReadError::Malformed),
    }
}

fn event_of(start: Option<(TxId, u64)>) -> Option<EventId>
    ensures { result ≡ start }
{
    match start {
        Some((tx, seq)) => Some(EventId { tx, seq }),
        None => None,
    }
}

#[tactic(auto, unfolding(crate::specs::LeafReading::columns_at))]
fn columns_at(alloc: Global, bytes: &[u8]) -> Result<(Items<EventField>, &[u8]), ReadError>
    ensures { ReadsAs (λ x. (x.0, x.1.now)) result (columns_at bytes.now) }
{
    let (count, rest) = u16_at(bytes)?;
    let (columns, rest) = some_columns(alloc, count, rest)?;
    if !ordinals_rise(columns.as_slice()) {
        return Err(ReadError::Malformed);
    }
    Ok((columns, rest))
}

fn some_columns(
    alloc: Global,
    count: u16,
    bytes: &[u8],
) -> Result<(Items<EventField>, &[u8]), ReadError>
    ensures { ReadsAs (λ x. (x.0, x.1.now)) result (times column_at count bytes.now) }
{
    let mut columns = Items::new(alloc);
    let mut rest = bytes;
    for _ in 0..count {
        let (column, after) = column_at(alloc, rest)?;
        columns.push(column)?;
        rest = after;
    }
    Ok((columns, rest))
}

fn ordinals_rise(columns: &[EventField]) -> bool
    ensures { result ≡ ordinals_rise columns.now }
{
    let mut last = 0;
    let mut rest = columns;
    while let [column, more @ ..] = rest {
        if column.ordinal <= last {
            return false;
        }
        last = column.ordinal;
        rest = more;
    }
    true
}

#[tactic(auto, unfolding(crate::specs::LeafReading::column_at))]
fn column_at(alloc: Global, bytes: &[u8]) -> Result<(EventField, &[u8]), ReadError>
    ensures { ReadsAs (λ x. (x.0, x.1.now)) result (column_at bytes.now) }
{
    let (ordinal, rest) = u16_at(bytes)?;
    let (ty, rest) = type_at(rest)?;
    let (encoded, rest) = long_at(rest)?;
    let value = value_of(alloc, ty, encoded)?;
    if !fits(&value, &ty) {
        return Err(ReadError::Malformed);
    }
    Ok((EventField { ordinal, ty, value }, rest))
}

/// The type at the front of the bytes, and what follows it, or `Malformed` exactly where none is there. Its
/// parameters may be out of its ranges. Takes no memory.
#[tactic(auto, unfolding(crate::specs::LeafReading::type_at))]
pub fn type_at(bytes: &[u8]) -> Result<(SqlType, &[u8]), ReadError>
    ensures reads { Finds (λ x. (x.0, x.1.now)) result (type_at bytes.now) }
    ensures small { IfOk result (λ x. second_parameter x.0 < 256) }
{
    let (code, rest) = u8_at(bytes)?;
    let (first, rest) = u16_at(rest)?;
    let (second, rest) = u8_at(rest)?;
    let ty = coded(code, first.into(), second.into());
    let (its_code, its_first, its_second) = type_parts(ty);
    if its_code == code && its_first == first.into() && its_second == second.into() {
        Ok((ty, rest))
    } else {
        Err(ReadError::Malformed)
    }
}

// The type of this code with these parameters, as far as it has some.
fn coded(code: u8, first: u32, second: u32) -> SqlType
    ensures { result ≡ coded code first second }
{
    match code {
        1 => SqlType::Bit,
        2 => SqlType::Int,
        3 => SqlType::BigInt,
        4 => SqlType::Decimal {
            p: first,
            s: second,
        },
        5 => SqlType::NVarChar { n: first },
        6 => SqlType::VarBinary { n: first },
        _ => SqlType::Date,
    }
}
