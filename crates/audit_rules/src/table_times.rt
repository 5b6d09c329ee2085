//! Whether a version keeps the rules of changes that speak of when its table was there and its columns were dropped.

ghost use Rattle.std.specs.Prelude.{◌≡◌, ◌&&◌, ◌+◌, not, pos, List};
ghost use Rattle.std.specs.List.{list_all};
ghost use Rattle.sql_types.specs.declared.entry.TxEntry.{TxEntry};
ghost use Rattle.spec_model.specs.Keys.{value_at};
ghost use Rattle.spec_model.specs.Lists.{numbered};
ghost use Rattle.spec_model.specs.Rows.{value_or_null, values_of};
ghost use Rattle.spec_rules.specs.DroppedColumns as carried;
ghost use Rattle.spec_rules.specs.Rows as words;
ghost use Rattle.spec_rules.specs.Rows.{CatalogRows};
ghost use Rattle.spec_rules.specs.Rules.{version_keeps_the_rules};
ghost use Rattle.audit_rules.specs.FirstRanks.{is_past as spec_is_past};
ghost use Rattle.audit_rules.specs.Times as spec;
ghost use Rattle.audit_rules.specs.Times.{AreTableTimes, AreTimes, IsInTime, last_of};

use crate::first_ranks::Thing;
use crate::rows::is_before;
use crate::times::Times;
use audit_columns::Rank;
use base_types::TableId;
use sql_parts::{Valued, compare_values};
use sql_types::{EventId, TypedValue, Version};
use sql_value::Value;

/// A version with the places of its start and its end, and the version of its key just before it.
#[derive(Clone, Copy, Debug)]
pub struct VersionInTime<'a> {
    pub version: &'a Version,
    pub start: Rank,
    pub end: Option<Rank>,
    pub last: Option<&'a Version>,
}

/// When a table was created and dropped, and when its columns were dropped.
#[derive(Clone, Copy, Debug)]
pub struct TableTimes<'t> {
    pub times: &'t Times,
    pub table: TableId,
    pub created: Option<Rank>,
    pub gone: Option<Rank>,
}

fn is_past(rank: Option<Rank>, before: Rank) -> bool
    ensures { result ≡ spec_is_past rank before }
{
    match rank {
        Some(rank) => is_before(rank, before),
        None => false,
    }
}

fn table_itself(table: TableId) -> Thing
    ensures { result ≡ record { table = pos table; item = pos 0 } }
{
    Thing {
        table: i128::from(table),
        item: 0,
    }
}

/// The column at this place of the table, counted from 0.
fn column_at(table: TableId, place: usize) -> Thing
    ensures { result ≡ record { table = pos table; item = pos (place + 1) } }
{
    Thing {
        table: i128::from(table),
        item: place as i128 + 1,
    }
}

fn is_just_before(end: Option<EventId>, event: EventId) -> bool
    ensures { result ≡ carried.is_just_before end event }
{
    match end {
        Some(end) => end.tx == event.tx && end.seq.checked_add(1) == Some(event.seq),
        None => false,
    }
}

fn is_null(value: &Option<TypedValue>) -> bool
    ensures { result ≡ words.is_null (value_or_null value.now) }
{
    match value {
        None => true,
        Some(typed) => is_null_value(&typed.value),
    }
}

fn is_null_value(value: &Value) -> bool
    ensures { result ≡ words.is_null value.now }
{
    match value {
        Value::Null => true,
        Value::Num { .. } | Value::Text(_) | Value::Bytes(_) | Value::Date(_) => false,
    }
}

/// Whether the version has this value at the place.
fn has_value(version: &Version, place: usize, value: &Option<TypedValue>) -> bool
    ensures { result ≡ words.same_value (value_at (values_of version.now) place) (value_or_null value.now) }
{
    match value {
        Some(typed) => compare_values(version.value_at(place), Some(&typed.value)).is_eq(),
        None => compare_values(version.value_at(place), None).is_eq(),
    }
}

impl<'t> TableTimes<'t> {
    /// Those of the table. Takes two ordered searches.
    pub fn of(times: &'t Times, table: TableId) -> TableTimes<'t>
        ensures table { result.table ≡ table }
        ensures times { (rows : CatalogRows) → AreTimes rows times.now → AreTableTimes rows result }
    {
        let itself = table_itself(table);
        TableTimes {
            times,
            table,
            created: times.created_at(&itself),
            gone: times.gone_at(&itself),
        }
    }

    /// Whether the version keeps the rules of changes: its table was there from its start to its end.
    #[tactic(auto, using(crate::proofs::TimesOfTables::there_is))]
    pub fn keeps_the_rules(&self, version: &VersionInTime) -> bool
        ensures { (entries : List TxEntry) (rows : CatalogRows) → AreTableTimes rows self.now
            → IsInTime entries version.now → result
            ≡ version_keeps_the_rules entries rows (pos self.now.table) (last_of version.now) version.now.version.now }
    {
        self.is_there(version.start, version.end)
    }

    /// Whether the table was there at the start, and until the end if there is one.
    fn is_there(&self, start: Rank, end: Option<Rank>) -> bool
        ensures { result ≡ (spec_is_past self.now.created start && not (spec_is_past self.now.gone start)
            && not (spec.is_past_end self.now.gone end)) }
    {
        is_past(self.created, start) && !is_past(self.gone, start) && !is_past_end(self.gone, end)
    }

    fn is_dropped_at(&self, place: usize, before: Rank) -> bool
        ensures { (rows : CatalogRows) → AreTableTimes rows self.now
            → result ≡ carried.is_dropped_at rows (pos self.now.table) before (pos (place + 1)) }
    {
        is_past(self.times.dropped_at(&column_at(self.table, place)), before)
    }

    fn is_outside_key_at(&self, place: usize, before: Rank) -> bool
        ensures { (rows : CatalogRows) → AreTableTimes rows self.now
            → result ≡ carried.is_outside_key_at rows (pos self.now.table) before (pos (place + 1)) }
    {
        is_past(
            self.times.outside_key_at(&column_at(self.table, place)),
            before,
        )
    }

    /// Whether what stands in dropped columns is NULL, or comes from the version before. Takes an ordered search for
    /// each of its values.
    #[tactic(auto, using(crate::proofs::TimesOfTables::carried_is))]
    pub fn are_carried(&self, version: &VersionInTime) -> bool
        ensures { (entries : List TxEntry) (rows : CatalogRows) → AreTableTimes rows self.now
            → IsInTime entries version.now → result
            ≡ carried.dropped_columns_are_carried entries rows (pos self.now.table) (last_of version.now)
            version.now.version.now }
    {
        self.are_null(version.version, version.start) || self.comes_from_last(version)
    }

    /// Whether what stands in dropped columns comes from the version before, by an UPDATE that could set another
    /// column.
    fn comes_from_last(&self, version: &VersionInTime) -> bool
        ensures { (rows : CatalogRows) → AreTableTimes rows self.now
            → result ≡ spec.comes_from_last rows (pos self.now.table) version.now.start
            (last_of version.now) version.now.version.now }
    {
        match version.last {
            None => false,
            Some(last) => {
                is_just_before(last.end, version.version.start)
                    && self.hands_on(last, version.version, version.start)
                    && self.has_another_column(version.version, version.start)
            }
        }
    }

    /// Whether NULL stands in each dropped column.
    fn are_null(&self, version: &Version, start: Rank) -> bool
        ensures { (rows : CatalogRows) → AreTableTimes rows self.now → result
            ≡ list_all (spec.is_null_if_dropped rows (pos self.now.table) start) (numbered 0 (values_of version.now)) }
    {
        for (place, value) in version.values.as_slice().iter().enumerate() {
            if !is_null(value) && self.is_dropped_at(place, start) {
                return false;
            }
        }
        true
    }

    /// Whether the version before has what stands in each dropped column.
    fn hands_on(&self, last: &Version, version: &Version, start: Rank) -> bool
        ensures { (rows : CatalogRows) → AreTableTimes rows self.now → result
            ≡ list_all (spec.is_handed_on_if_dropped rows (pos self.now.table) start last.now)
            (numbered 0 (values_of version.now)) }
    {
        for (place, value) in version.values.as_slice().iter().enumerate() {
            if self.is_dropped_at(place, start) && !has_value(last, place, value) {
                return false;
            }
        }
        true
    }

    /// Whether a column is there to which a statement may give a value.
    fn has_another_column(&self, version: &Version, start: Rank) -> bool
        ensures { (rows : CatalogRows) → AreTableTimes rows self.now → result
            ≡ carried.has_another_column rows (pos self.now.table) start version.now }
    {
        for (place, _) in version.values.as_slice().iter().enumerate() {
            if self.is_outside_key_at(place, start) && !self.is_dropped_at(place, start) {
                return true;
            }
        }
        false
    }
}

fn is_past_end(rank: Option<Rank>, end: Option<Rank>) -> bool
    ensures { result ≡ spec.is_past_end rank end }
{
    match end {
        Some(end) => is_past(rank, end),
        None => false,
    }
}
