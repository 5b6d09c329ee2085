//! Events that a program has in memory have room in a leaf.

ghost use Rattle.std.specs.Prelude.{◌≡◌, true, IfSome};
ghost use Rattle.std.specs.List.{AllByRecursion};
ghost use Rattle.format_event.specs.Leaf.{is_text, IsPair};
ghost use Rattle.format_event.specs.TypedBytes.{IsUtf8Text};
ghost use Rattle.law_events.specs.Room.{AreTexts, FitsLeafFormat};

use sql_types::{Event, EventField, EventId, TypedValue};
use sql_value::Value;

/// Does nothing: it is there for its contract.
fn is_text(value: &Value)
    ensures { is_text value.now ≡ true }
{
    if let Value::Text(text) = value {
        text.as_str();
    }
}

/// Does nothing: it is there for its contract.
fn is_utf8_text(value: &Option<TypedValue>)
    ensures { IsUtf8Text value.now }
{
    if let Some(typed) = value {
        is_text(&typed.value);
    }
}

/// The texts among values are UTF-8. Does nothing: it is there for its contract.
pub fn are_utf8_texts(values: &[Option<TypedValue>])
    ensures { AllByRecursion IsUtf8Text values.now }
{
    for value in values {
        is_utf8_text(value);
    }
}

/// Does nothing: it is there for its contract.
fn are_texts(columns: &[EventField])
    ensures { AreTexts columns.now }
{
    for column in columns {
        is_text(&column.value);
    }
}

/// Does nothing: it is there for its contract.
fn is_pair(ends: Option<EventId>)
    ensures { IfSome ends IsPair }
{}

/// Does nothing: it is there for its contract.
fn has_room(event: &Event)
    ensures { FitsLeafFormat event.now }
{
    let _table = event.table;
    let _tx = event.tx;
    let _seq = event.seq;
    is_pair(event.ends);
    are_texts(event.columns.as_slice());
}

/// The numbers of events have room in a leaf, and their texts are UTF-8. Does nothing: it is there for its
/// contract.
pub fn have_room(events: &[Event])
    ensures { AllByRecursion FitsLeafFormat events.now }
{
    for event in events {
        has_room(event);
    }
}
