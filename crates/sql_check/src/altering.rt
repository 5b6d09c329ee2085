//! ALTER TABLE and DROP TABLE: their checks, and the definitions that they make.

ghost use Rattle.std.specs.Prelude.{◌≡◌, ◌<◌, ◌≤◌, ◌-◌, ◌^◌, ◌||◌, not, nat_le, IfOk, IfSome, length, option_map, position, string_bytes};
ghost use Rattle.std.specs.List.{insert};
ghost use Rattle.std.specs.Ordering.{nat_cmp};
ghost use Rattle.sql_value.specs.Stored.{is_in_range as spec_is_in_range};
ghost use Rattle.spec_model.specs.Alter as spec;
ghost use Rattle.spec_model.specs.Columns.{names_of, place_of as spec_place_of};
ghost use Rattle.spec_model.specs.Create as create;
ghost use Rattle.spec_model.specs.Limits.{max_columns};
ghost use Rattle.spec_model.specs.Lists as lists;
ghost use Rattle.spec_model.specs.Refusals.{MatchesUnlessOom};
ghost use Rattle.sql_check.specs.Altering as altering;

use crate::creating::{
    Definitions, MOST_COLUMNS, is_ledger_name, is_long, names_long, names_repeat, names_used,
};
use crate::names::has_name;
use crate::rows::{is_standing, refuse_if};
use base_types::{Items, Memory, Name, TableId};
use sql_parts::{copy_def, is_dropped, place_of};
use sql_types::{Alter, Part, TableDef};
use sql_value::{ColumnDef, Refusal};
use std::alloc::{AllocError, Global};

/// The definition of a table after ALTER TABLE, and the ordinal and the definition of the column that was added or dropped.
pub type WithColumn = (TableDef, (u16, ColumnDef));

/// The name of the table that a statement alters.
pub fn altered_name(alter: &Alter) -> &Name
    ensures { result.now ≡ altering.altered_name alter.now }
{
    match alter {
        Alter::Add { table, column: _ } => table,
        Alter::DropColumn { table, column: _ } => table,
    }
}

/// The checks of ALTER TABLE on what its name stands for, which is this part of a table, and the definition that it makes:
/// of ADD NameConflict, LimitExceeded and ReadOnlyTable, and of DROP COLUMN behind these NoSuchColumn and KeyNotUpdatable,
/// in this order, or NoMemory for want of memory. The table has fewer than 65,535 columns.
pub fn altered_table(
    alloc: Global,
    def: &TableDef,
    part: Part,
    alter: &Alter,
) -> Result<WithColumn, Refusal>
    requires { length def.now.columns < 2 ^ 16 - 1 }
    ensures { MatchesUnlessOom (altering.altered_in alter.now (def.now, part)) result }
{
    match alter {
        Alter::Add { table: _, column } => add_column(alloc, def, part, column),
        Alter::DropColumn { table: _, column } => drop_column(alloc, def, part, column),
    }
}

// ---- ADD

/// Whether the name of an added column is taken in its table, or one that the ledger adds.
fn has_taken_name(def: &TableDef, column: &ColumnDef) -> bool
    ensures { result ≡ (lists.has_name (names_of def.now.columns) column.now.name
        || create.is_ledger_name column.now.name) }
{
    has_name(def.columns.as_slice(), &column.name) || is_ledger_name(&column.name)
}

/// Whether the table has no room for a column, its type is out of its range, or its name too long.
fn is_over(def: &TableDef, column: &ColumnDef) -> bool
    ensures { result ≡ ((nat_le max_columns (length def.now.columns) || not (spec_is_in_range column.now.ty))
        || create.is_long column.now.name) }
{
    def.columns.len() >= MOST_COLUMNS || !column.ty.is_in_range() || is_long(&column.name)
}

/// The column as it is added: it may be NULL and is in no key.
fn column_to_add(column: &ColumnDef) -> Result<ColumnDef, Memory>
    ensures { IfOk result (λ added. added ≡ spec.column_to_add column.now) }
{
    Ok(ColumnDef {
        name: column.name.copy()?,
        ty: column.ty,
        nullable: true,
        key_position: 0,
    })
}

/// The definition with the column behind all others.
fn with_added(alloc: Global, def: &TableDef, column: &ColumnDef) -> Result<TableDef, Memory>
    ensures { IfOk result (λ now. now ≡ spec.with_added def.now column.now) }
{
    let last = column_to_add(column)?;
    let mut now = copy_def(alloc, def)?;
    match now.columns.push(last) {
        Ok(()) => Ok(now),
        Err(error) => {
            // that each part is let go is then proved once for the type
            drop(now);
            Err(error)
        }
    }
}

/// The definition with the column behind all others, and the column with its ordinal.
#[tactic(auto, using(crate::proofs::Alterations::as_added))]
fn added_to(alloc: Global, def: &TableDef, column: &ColumnDef) -> Result<WithColumn, Memory>
    requires { length def.now.columns < 2 ^ 16 - 1 }
    ensures { IfOk result (λ added. added ≡ spec.added_to def.now column.now) }
{
    let ordinal = def.columns.len() as u16 + 1;
    let added = column_to_add(column)?;
    let now = with_added(alloc, def, column)?;
    Ok((now, (ordinal, added)))
}

fn add_column(
    alloc: Global,
    def: &TableDef,
    part: Part,
    column: &ColumnDef,
) -> Result<WithColumn, Refusal>
    requires { length def.now.columns < 2 ^ 16 - 1 }
    ensures { MatchesUnlessOom (spec.add_check_in column.now (def.now, part)) result }
{
    refuse_if(has_taken_name(def, column), Refusal::NameConflict)?;
    refuse_if(is_over(def, column), Refusal::LimitExceeded)?;
    refuse_if(!is_standing(def, part), Refusal::ReadOnlyTable)?;
    Ok(added_to(alloc, def, column)?)
}

// ---- DROP COLUMN

fn dropped_text(alloc: Global, what: &str, name: &str, number: u32) -> Result<String, AllocError>
    ensures { IfOk result (λ text. string_bytes text ≡ spec.dropped_name what.now name.now number) }
{
    Ok(format!(in alloc; "MSSQL_DroppedLedger{what}_{name}_{number}")?)
}

/// The name of what was dropped, by the name that it had and a number that no other has.
fn dropped_name(alloc: Global, what: &str, name: &Name, number: u32) -> Result<Name, Memory>
    ensures { IfOk result (λ dropped. dropped ≡ spec.dropped_name what.now name.now number) }
{
    let dropped = dropped_text(alloc, what, name.as_str(), number)?;
    Name::of_str(alloc, dropped.as_str())
}

fn dropped_column_name(alloc: Global, name: &Name, ordinal: u16) -> Result<Name, Memory>
    ensures { IfOk result (λ dropped. dropped ≡ spec.dropped_column_name name.now ordinal) }
{
    dropped_name(alloc, "Column", name, ordinal as u32)
}

/// The column at this place, unless it was dropped.
#[tactic(auto, using(crate::proofs::Alterations::dropped_there, crate::proofs::Alterations::live_there))]
fn live_at(def: &TableDef, place: usize) -> Option<(usize, &ColumnDef)>
    requires within { place < length def.now.columns }
    requires few { length def.now.columns < 2 ^ 16 - 1 }
    ensures live { option_map (λ p. (p.0, p.1.now)) result ≡ spec.live_at def.now place }
    ensures within { IfSome result (λ p. p.0 < length def.now.columns) }
{
    if is_dropped(def, place + 1) {
        return None;
    }
    Some((place, def.columns.get(place)?))
}

/// The place of the column of this name.
fn place_in(columns: &[ColumnDef], name: &Name) -> Option<usize>
    ensures place { result ≡ spec_place_of columns.now name.now }
    ensures within { IfSome result (λ place. place < length columns.now) }
{
    place_of(columns, name)
}

/// The column of this name that wasn't dropped, with its place.
fn live_named<'a>(def: &'a TableDef, name: &Name) -> Option<(usize, &'a ColumnDef)>
    requires { length def.now.columns < 2 ^ 16 - 1 }
    ensures live { option_map (λ p. (p.0, p.1.now)) result ≡ spec.live_named def.now name.now }
    ensures within { IfSome result (λ p. p.0 < length def.now.columns) }
{
    let place = place_in(def.columns.as_slice(), name)?;
    live_at(def, place)
}

#[tactic(auto, using(crate::proofs::Alterations::not_standing, crate::proofs::Alterations::no_column, crate::proofs::Alterations::live_dropped))]
fn drop_column(
    alloc: Global,
    def: &TableDef,
    part: Part,
    name: &Name,
) -> Result<WithColumn, Refusal>
    requires { length def.now.columns < 2 ^ 16 - 1 }
    ensures { MatchesUnlessOom (spec.drop_column_check_in name.now (def.now, part)) result }
{
    if !is_standing(def, part) {
        return Err(Refusal::ReadOnlyTable);
    }
    match live_named(def, name) {
        Some((place, column)) => drop_live(alloc, def, place, column),
        None => Err(Refusal::NoSuchColumn),
    }
}

/// NameConflict, LimitExceeded and KeyNotUpdatable where the column at this place is dropped.
fn check_drop(def: &TableDef, column: &ColumnDef, new_name: &Name) -> Result<(), Refusal>
    ensures { result ≡ altering.drop_check def.now column.now new_name.now }
{
    refuse_if(
        has_name(def.columns.as_slice(), new_name),
        Refusal::NameConflict,
    )?;
    refuse_if(is_long(new_name), Refusal::LimitExceeded)?;
    refuse_if(column.key_position != 0, Refusal::KeyNotUpdatable)
}

/// Drops the column at this place of a table that stands, which wasn't dropped before.
#[tactic(auto, using(crate::proofs::Alterations::column_refused, crate::proofs::Alterations::column_dropped))]
fn drop_live(
    alloc: Global,
    def: &TableDef,
    place: usize,
    column: &ColumnDef,
) -> Result<WithColumn, Refusal>
    requires within { place < length def.now.columns }
    requires few { length def.now.columns < 2 ^ 16 - 1 }
    ensures { MatchesUnlessOom (altering.dropped_live def.now (place, column.now)) result }
{
    let ordinal = place as u16 + 1;
    let new_name = dropped_column_name(alloc, &column.name, ordinal)?;
    check_drop(def, column, &new_name)?;
    let dropped = renamed(column, new_name.copy()?);
    let now = with_dropped(alloc, def, place, ordinal, dropped)?;
    Ok((now, (ordinal, renamed(column, new_name))))
}

/// The column as it is dropped: it has this name and may be NULL.
fn renamed(column: &ColumnDef, name: Name) -> ColumnDef
    ensures { result ≡ altering.renamed column.now name }
{
    ColumnDef {
        name,
        ty: column.ty,
        nullable: true,
        key_position: column.key_position,
    }
}

/// The definition in which the column at this place has become this one, and its ordinal is among the dropped.
fn with_dropped(
    alloc: Global,
    def: &TableDef,
    place: usize,
    ordinal: u16,
    column: ColumnDef,
) -> Result<TableDef, Memory>
    requires { place < length def.now.columns }
    ensures { IfOk result (λ now. now ≡ altering.with_one_dropped def.now place ordinal column) }
{
    let dropped = with_ordinal(alloc, def.dropped.as_slice(), ordinal)?;
    let copy = copy_def(alloc, def)?;
    let mut columns = copy.columns.into_vec();
    columns[place] = column;
    Ok(TableDef {
        columns: Items::from_vec(columns),
        dropped,
        ..copy
    })
}

/// The ordinals, with one more before the first that isn't less.
fn with_ordinal(alloc: Global, ordinals: &[u16], ordinal: u16) -> Result<Items<u16>, Memory>
    ensures { IfOk result (λ more. more ≡ lists.inserted nat_cmp ordinal ordinals.now) }
{
    let mut more = Items::from_vec(Vec::from_clones(alloc, ordinals)?);
    more.insert(place_for(ordinals, ordinal), ordinal)?;
    Ok(more)
}

/// The place of the first that isn't less, or else the end.
#[tactic(auto, using(crate::proofs::Alterations::put_before, crate::proofs::Alterations::put_last))]
fn place_for(ordinals: &[u16], ordinal: u16) -> usize
    ensures place { insert ordinals.now result ordinal ≡ lists.inserted nat_cmp ordinal ordinals.now }
    ensures within { result ≤ length ordinals.now }
{
    match first_from(ordinals, ordinal) {
        Some(place) => place,
        None => ordinals.len(),
    }
}

/// The place of the first that isn't less.
fn first_from(ordinals: &[u16], ordinal: u16) -> Option<usize>
    ensures { result ≡ position (λ m. nat_le ordinal m) ordinals.now }
{
    ordinals.iter().position(|other| ordinal <= *other)
}

// ---- DROP TABLE

/// The checks of DROP TABLE on what its name stands for, which is this part of a table, and the definition that it makes:
/// NameConflict, LimitExceeded and ReadOnlyTable, in this order, or NoMemory for want of memory.
#[tactic(auto, using(crate::proofs::Alterations::table_not_standing))]
pub fn dropped_table<D: Definitions>(
    alloc: Global,
    defs: &D,
    def: &TableDef,
    part: Part,
) -> Result<TableDef, Refusal>
    ensures { MatchesUnlessOom (spec.drop_check_in (D.defs defs.now) (def.now, part)) result }
{
    if !is_standing(def, part) {
        return Err(Refusal::ReadOnlyTable);
    }
    let name = dropped_name(alloc, "Table", &def.name, def.id)?;
    let history = history_name(alloc, &def.history, def.id)?;
    let view = dropped_name(alloc, "View", &def.view, def.id)?;
    gone_as(alloc, defs, def, name, history, view)
}

/// The definition of a dropped table with these names, where nothing is refused of them.
fn gone_as<D: Definitions>(
    alloc: Global,
    defs: &D,
    def: &TableDef,
    name: Name,
    history: Name,
    view: Name,
) -> Result<TableDef, Refusal>
    ensures { MatchesUnlessOom (altering.gone_as (D.defs defs.now) def.now name history view) result }
{
    check_names(defs, &name, &history, &view)?;
    Ok(gone(alloc, def, name, history, view)?)
}

/// The name of the history of a dropped table; what has no history gets none.
fn history_name(alloc: Global, history: &Name, id: TableId) -> Result<Name, Memory>
    ensures { IfOk result (λ dropped. dropped ≡ spec.dropped_history_name history.now id) }
{
    if history.bytes().is_empty() {
        return history.copy();
    }
    dropped_name(alloc, "History", history, id)
}

/// NameConflict and LimitExceeded of the new names of a dropped table.
fn check_names<D: Definitions>(
    defs: &D,
    name: &Name,
    history: &Name,
    view: &Name,
) -> Result<(), Refusal>
    ensures { result ≡ altering.names_check (D.defs defs.now) name.now history.now view.now }
{
    refuse_if(
        names_repeat(name, history, view) || names_used(defs, name, history, view),
        Refusal::NameConflict,
    )?;
    refuse_if(names_long(name, history, view), Refusal::LimitExceeded)
}

/// The definition of a dropped table, with these names.
fn gone(
    alloc: Global,
    def: &TableDef,
    name: Name,
    history: Name,
    view: Name,
) -> Result<TableDef, Memory>
    ensures { IfOk result (λ now. now ≡ altering.gone def.now name history view) }
{
    let copy = copy_def(alloc, def)?;
    Ok(TableDef {
        name,
        gone: true,
        history,
        view,
        ..copy
    })
}
