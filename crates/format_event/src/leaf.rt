//! Writing the leaf of an event.

ghost use Rattle.std.specs.Prelude.{◌≡◌, ◌<◌, ◌^◌, ◌++◌, All, FitsSigned, take, length, filter, flat_map, OnOk, OnErr};
ghost use Rattle.std.specs.Int.{w8, w32, w64};
ghost use Rattle.base_fields.specs.Fields.{long_field, u32_field, signed_field, i128_field};
ghost use Rattle.format_event.specs.Leaf.{event_bytes, encoded, head_of, op_of, without_nulls, columns_bytes, column_bytes, start_bytes, type_bytes, value_bytes, number_bytes, first_parameter, second_parameter, has_value, is_told, HasLeaf, IsField, IsFieldOrNull, FitsBytes, FitsNumber};

use base_fields::{put_long, put_u8, put_u16, put_u32, put_u64};
use base_types::{Memory, TableId};
use sql_types::{Event, EventField, EventId};
use sql_value::{SqlType, Value, type_parts};

/// Appends the leaf of an event, which leaves its NULL columns out. The event is to have one: its values are
/// those of their types, and their ordinals rise. The only error is want of memory, and then the bytes are as
/// they were.
#[tactic(auto, unfolding(crate::specs::Leaf::event_bytes))]
pub fn write_event(e: &Event, out: &mut Vec<u8>) -> Result<(), Memory>
    requires { HasLeaf e.now }
    ensures ok { OnOk result (out.new.items ≡ out.old.items ++ event_bytes e.now) }
    ensures err { OnErr result (out.new.items ≡ out.old.items) }
{
    let before = out.len();
    let written = put_parts(e, out);
    if written.is_err() {
        out.truncate(before);
    }
    written
}

fn put_parts(e: &Event, out: &mut Vec<u8>) -> Result<(), Memory>
    requires { HasLeaf e.now }
    ensures ok { OnOk result (out.new.items ≡ out.old.items ++ encoded (without_nulls e.now)) }
    ensures grows { take (length out.old.items) out.new.items ≡ out.old.items }
{
    let id = EventId {
        tx: e.tx,
        seq: e.seq,
    };
    put_head(e.table, e.ends, id, out)?;
    put_start(e.ends, out)?;
    put_columns(e.columns.as_slice(), out)
}

pub(crate) fn put_head(
    table: TableId,
    ends: Option<EventId>,
    id: EventId,
    out: &mut Vec<u8>,
) -> Result<(), Memory>
    ensures ok { OnOk result (out.new.items ≡ out.old.items ++ head_of table (op_of ends) id) }
    ensures grows { take (length out.old.items) out.new.items ≡ out.old.items }
{
    out.extend_from_slice(&head_of(table, op_of(ends), id))?;
    Ok(())
}

// 1 for a start, 2 for an end.
fn op_of(ends: Option<EventId>) -> u8
    ensures { result ≡ op_of ends }
{
    match ends {
        None => 1,
        Some(_) => 2,
    }
}

// One array, so that the head is appended at once.
#[tactic(auto, unfolding(base_fields::specs::Fields::u32_field, base_fields::specs::Fields::u64_field))]
fn head_of(table: TableId, op: u8, id: EventId) -> [u8; 22]
    ensures { result ≡ head_of table op id }
{
    let [a, b, c, d] = table.to_be_bytes();
    let [x0, x1, x2, x3, x4, x5, x6, x7] = id.tx.to_be_bytes();
    let [y0, y1, y2, y3, y4, y5, y6, y7] = id.seq.to_be_bytes();
    [
        1, a, b, c, d, op, x0, x1, x2, x3, x4, x5, x6, x7, y0, y1, y2, y3, y4, y5, y6, y7,
    ]
}

// The start of the version that an end ends.
pub(crate) fn put_start(start: Option<EventId>, out: &mut Vec<u8>) -> Result<(), Memory>
    ensures ok { OnOk result (out.new.items ≡ out.old.items ++ start_bytes start) }
    ensures grows { take (length out.old.items) out.new.items ≡ out.old.items }
{
    if let Some(EventId { tx, seq }) = start {
        put_u64(out, tx)?;
        put_u64(out, seq)?;
    }
    Ok(())
}

// How many columns are not NULL, and these.
fn put_columns(columns: &[EventField], out: &mut Vec<u8>) -> Result<(), Memory>
    requires count { length (filter has_value columns.now) < 2 ^ 16 }
    requires fields { All IsFieldOrNull columns.now }
    ensures ok { OnOk result (out.new.items ≡ out.old.items ++ columns_bytes (filter has_value columns.now)) }
    ensures grows { take (length out.old.items) out.new.items ≡ out.old.items }
{
    put_u16(out, told_of(columns) as u16)?;
    put_each(columns, out)
}

fn told_of(columns: &[EventField]) -> usize
    ensures { result ≡ length (filter has_value columns.now) }
{
    columns
        .iter()
        .filter(|column| is_told(&column.value))
        .count()
}

fn is_told(value: &Value) -> bool
    ensures { result ≡ is_told value.now }
{
    !matches!(value, Value::Null)
}

fn put_each(columns: &[EventField], out: &mut Vec<u8>) -> Result<(), Memory>
    requires { All IsFieldOrNull columns.now }
    ensures ok { OnOk result (out.new.items
        ≡ out.old.items ++ flat_map column_bytes (filter has_value columns.now)) }
    ensures grows { take (length out.old.items) out.new.items ≡ out.old.items }
{
    for column in columns {
        if is_told(&column.value) {
            put_column(column, out)?;
        }
    }
    Ok(())
}

fn put_column(column: &EventField, out: &mut Vec<u8>) -> Result<(), Memory>
    requires { IsField column.now }
    ensures ok { OnOk result (out.new.items ≡ out.old.items ++ column_bytes column.now) }
    ensures grows { take (length out.old.items) out.new.items ≡ out.old.items }
{
    put_u16(out, column.ordinal)?;
    put_type(column.ty, out)?;
    put_value(column.ty, &column.value, out)
}

/// Appends a type: its code and its two parameters.
pub fn put_type(ty: SqlType, out: &mut Vec<u8>) -> Result<(), Memory>
    requires first { first_parameter ty < 2 ^ 16 }
    requires second { second_parameter ty < 2 ^ 8 }
    ensures ok { OnOk result (out.new.items ≡ out.old.items ++ type_bytes ty) }
    ensures grows { take (length out.old.items) out.new.items ≡ out.old.items }
{
    let (code, first, second) = type_parts(ty);
    put_u8(out, code)?;
    put_u16(out, first as u16)?;
    put_u8(out, second as u8)
}

pub(crate) fn put_value(ty: SqlType, value: &Value, out: &mut Vec<u8>) -> Result<(), Memory>
    requires size { length (value_bytes ty value.now) < 2 ^ 32 }
    requires number { FitsBytes ty value.now }
    ensures ok { OnOk result (out.new.items ≡ out.old.items ++ long_field (value_bytes ty value.now)) }
    ensures grows { take (length out.old.items) out.new.items ≡ out.old.items }
{
    match value {
        Value::Null => put_long(out, &[]),
        Value::Num { v, .. } => put_number(ty, *v, out),
        Value::Text(text) => put_long(out, text.bytes()),
        Value::Bytes(bytes) => put_long(out, bytes.bytes()),
        Value::Date(day) => put_day(*day, out),
    }
}

#[tactic(auto, unfolding(base_fields::specs::Fields::u32_field))]
fn put_day(day: u32, out: &mut Vec<u8>) -> Result<(), Memory>
    ensures ok { OnOk result (out.new.items ≡ out.old.items ++ long_field (u32_field day)) }
    ensures err { OnErr result (out.new.items ≡ out.old.items) }
{
    put_long(out, &day.to_be_bytes())
}

fn put_number(ty: SqlType, v: i128, out: &mut Vec<u8>) -> Result<(), Memory>
    requires { FitsNumber ty v }
    ensures ok { OnOk result (out.new.items ≡ out.old.items ++ long_field (number_bytes ty v)) }
    ensures err { OnErr result (out.new.items ≡ out.old.items) }
{
    match ty {
        SqlType::Bit => put_long(out, &bit_bytes(v)),
        SqlType::Int => put_long(out, &int_bytes(v)),
        SqlType::BigInt => put_long(out, &big_int_bytes(v)),
        _ => put_long(out, &decimal_bytes(v)),
    }
}

#[tactic(auto, unfolding(base_fields::specs::Fields::signed_field))]
fn bit_bytes(v: i128) -> [u8; 1]
    requires { FitsSigned w8 v }
    ensures { result ≡ signed_field w8 v }
{
    (v as i8).to_be_bytes()
}

#[tactic(auto, unfolding(base_fields::specs::Fields::signed_field))]
fn int_bytes(v: i128) -> [u8; 4]
    requires { FitsSigned w32 v }
    ensures { result ≡ signed_field w32 v }
{
    (v as i32).to_be_bytes()
}

#[tactic(auto, unfolding(base_fields::specs::Fields::signed_field))]
fn big_int_bytes(v: i128) -> [u8; 8]
    requires { FitsSigned w64 v }
    ensures { result ≡ signed_field w64 v }
{
    (v as i64).to_be_bytes()
}

#[tactic(auto, unfolding(base_fields::specs::Fields::i128_field))]
fn decimal_bytes(v: i128) -> [u8; 16]
    ensures { result ≡ i128_field v }
{
    v.to_be_bytes()
}
