//! The events of a transaction.

ghost use Rattle.std.specs.Prelude.{◌≡◌, ◌++◌, ◌<◌, ◌-◌, ◌^◌, [], ◌∷◌, IfOk, OnOk, Some, flat_map, length};
ghost use Rattle.std.specs.List.{AllByRecursion};
ghost use Rattle.std.specs.Ordering.{nat_cmp};
ghost use Rattle.spec_model.specs.Events as spec;
ghost use Rattle.spec_model.specs.Lists.{sorted};
ghost use Rattle.sql_apply.specs.Own.{own, own_start, own_ends};
ghost use Rattle.sql_apply.specs.Short.{AreShort, IsShort};

use base_types::{Items, Memory, TableId, TxId};
use sql_types::{Event, EventField, EventId, Table, TypedValue, Version};
use std::alloc::Global;

/// The starts and ends that the transaction left, by table and number, with the values of their versions.
/// Looks at each version once and copies the values of those alone that the transaction started or ended.
#[tactic(auto, unfolding(spec_model::specs::Events::all_events))]
pub fn all_events(alloc: Global, tx: TxId, tables: &[Table]) -> Result<Items<Event>, Memory>
    requires { AreShort tables.now }
    ensures { IfOk result (λ events. events ≡ spec.all_events tx tables.now) }
{
    let mut events = Vec::new(alloc);
    for table in tables {
        let mut more = events_of(alloc, tx, table)?;
        events.append(&mut more)?;
    }
    Ok(Items::from_vec(events))
}

/// The events of the transaction in a table, by number.
#[tactic(auto, unfolding(spec_model::specs::Events::events_of), using(crate::proofs::Owned::owned))]
pub fn events_of(alloc: Global, tx: TxId, table: &Table) -> Result<Vec<Event>, Memory>
    requires { AllByRecursion IsShort table.now.versions }
    ensures { IfOk result (λ events. events.items ≡ spec.events_of tx table.now) }
{
    let mut events = own_events(alloc, tx, table.def.id, table.versions.as_slice())?;
    sort_by_number(&mut events)?;
    Ok(events)
}

/// Sorts events by their numbers.
fn sort_by_number(events: &mut Vec<Event>) -> Result<(), Memory>
    ensures { OnOk result (events.new.items ≡ sorted (λ a b. nat_cmp a.seq b.seq) events.old.items) }
{
    events.sort_by(|a, b| a.seq.cmp(&b.seq))?;
    Ok(())
}

/// The events of the transaction among the starts and ends of a table's versions.
fn own_events(
    alloc: Global,
    tx: TxId,
    table: TableId,
    versions: &[Version],
) -> Result<Vec<Event>, Memory>
    requires { AllByRecursion IsShort versions.now }
    ensures { IfOk result (λ events. events.items ≡ flat_map (own tx table) versions.now) }
{
    let mut events = Vec::new(alloc);
    for version in versions {
        add_start(alloc, tx, table, version, &mut events)?;
        add_end(alloc, tx, table, version, &mut events)?;
    }
    Ok(events)
}

/// Adds the start of a version, where the transaction started it.
fn add_start(
    alloc: Global,
    tx: TxId,
    table: TableId,
    version: &Version,
    events: &mut Vec<Event>,
) -> Result<(), Memory>
    requires { IsShort version.now }
    ensures { OnOk result (events.new.items ≡ events.old.items ++ own_start tx table version.now) }
{
    if version.start.tx == tx {
        events.push(start_event(alloc, table, version)?)?;
    }
    Ok(())
}

/// Adds the end of a version, where the transaction ended it.
fn add_end(
    alloc: Global,
    tx: TxId,
    table: TableId,
    version: &Version,
    events: &mut Vec<Event>,
) -> Result<(), Memory>
    requires { IsShort version.now }
    ensures { OnOk result (events.new.items
        ≡ events.old.items ++ own_ends tx table version.now version.now.end) }
{
    if let Some(end) = version.end {
        if end.tx == tx {
            events.push(end_event(alloc, table, version, end)?)?;
        }
    }
    Ok(())
}

fn start_event(alloc: Global, table: TableId, version: &Version) -> Result<Event, Memory>
    requires { IsShort version.now }
    ensures { IfOk result (λ event. event ≡ spec.start_event table version.now) }
{
    Ok(Event {
        table,
        tx: version.start.tx,
        seq: version.start.seq,
        ends: None,
        columns: fields_of(alloc, version.values.as_slice())?,
    })
}

fn end_event(
    alloc: Global,
    table: TableId,
    version: &Version,
    end: EventId,
) -> Result<Event, Memory>
    requires { IsShort version.now }
    ensures { IfOk result (λ event. event ≡ spec.end_event table version.now end) }
{
    Ok(Event {
        table,
        tx: end.tx,
        seq: end.seq,
        ends: Some(version.start),
        columns: fields_of(alloc, version.values.as_slice())?,
    })
}

/// Copies of the values other than NULL, by rising ordinal.
fn fields_of(alloc: Global, values: &[Option<TypedValue>]) -> Result<Items<EventField>, Memory>
    requires { length values.now < 2 ^ 16 - 1 }
    ensures { IfOk result (λ fields. fields ≡ spec.fields_of values.now) }
{
    let mut fields = Vec::with_capacity(alloc, values.len())?;
    for place in 0..values.len() {
        if let Some(typed) = &values[place] {
            fields.push(field_of(place as u16 + 1, typed)?)?;
        }
    }
    Ok(Items::from_vec(fields))
}

fn field_of(ordinal: u16, typed: &TypedValue) -> Result<EventField, Memory>
    ensures { IfOk result (λ field. field ∷ [] ≡ spec.fields_at (ordinal, Some typed.now)) }
{
    Ok(EventField {
        ordinal,
        ty: typed.ty,
        value: typed.value.copy()?,
    })
}
