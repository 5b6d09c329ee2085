//! CREATE TABLE: its checks, and the definition that it makes.

ghost use Rattle.std.specs.Prelude.{◌≡◌, ◌<◌, ◌≤◌, ◌-◌, ◌^◌, ◌||◌, ◌&&◌, not, IfOk, IfSome, position, map, length};
ghost use Rattle.std.specs.Str.{bytes_eq};
ghost use Rattle.std.specs.List.{list_any};
ghost use Rattle.sql_value.specs.Stored.{is_in_range};
ghost use Rattle.spec_model.specs.Catalog.{Defs};
ghost use Rattle.spec_model.specs.Refusals.{MatchesUnlessOom};
ghost use Rattle.spec_model.specs.Lists as lists;
ghost use Rattle.spec_model.specs.Create as spec;
ghost use Rattle.sql_check.specs.NewTable as new;

use crate::names::{has_name, is_named, repeats};
use crate::rows::{are_declared, refuse_if};
use base_types::{Items, Memory, Name, TableId};
use sql_types::{CreateTable, TableDef};
use sql_value::{ColumnDef, Refusal, TableKind};
use std::alloc::Global;

/// The most columns of a table.
pub const MOST_COLUMNS: usize = 64;

/// The most columns of a primary key.
const MOST_KEY_COLUMNS: usize = 4;

/// The most tables, those of the system among them.
const MOST_TABLES: usize = 34;

/// The most bytes of a new name.
const MOST_NAME_BYTES: usize = 128;

/// With what the names of columns that are added begin.
const ADDED: &str = "ledger_";

/// The definitions of all tables, as CREATE TABLE asks for them.
pub trait Definitions {
    ghost defs: { Self → Defs };

    /// How many there are.
    fn count(&self) -> usize
        ensures { result ≡ length (defs self.now) };

    /// Whether some table has the name, for itself, its history or its view.
    fn is_used(&self, name: &Name) -> bool
        ensures { result ≡ new.is_used (defs self.now) name.now };
}

/// The name of a table's history, which an append-only table doesn't have.
fn history_name(
    alloc: Global,
    kind: TableKind,
    id: TableId,
    written: &Option<Name>,
) -> Result<Name, Memory>
    ensures { IfOk result (λ name. name ≡ spec.history_of kind id written.now) }
{
    match (kind, written) {
        (TableKind::AppendOnly, _) => Name::of_str(alloc, ""),
        (TableKind::Updatable, Some(name)) => name.copy(),
        (TableKind::Updatable, None) => {
            let name = format!(in alloc; "MSSQL_LedgerHistoryFor_{id}")?;
            Name::of_str(alloc, name.as_str())
        }
    }
}

/// The name of a table's view.
fn view_name(alloc: Global, table: &Name, written: &Option<Name>) -> Result<Name, Memory>
    ensures { IfOk result (λ name. name ≡ spec.view_of table.now written.now) }
{
    match written {
        Some(name) => name.copy(),
        None => {
            let table = table.as_str();
            let name = format!(in alloc; "{table}_Ledger")?;
            Name::of_str(alloc, name.as_str())
        }
    }
}

/// Whether the name begins as those of added columns do, in any case.
pub(crate) fn is_ledger_name(name: &Name) -> bool
    ensures { result ≡ spec.is_ledger_name name.now }
{
    let bytes = name.bytes();
    let head = &bytes[..bytes.len().min(ADDED.len())];
    head.eq_ignore_ascii_case(ADDED.as_bytes())
}

/// Whether a new name is too long.
pub(crate) fn is_long(name: &Name) -> bool
    ensures { result ≡ spec.is_long name.now }
{
    name.bytes().len() > MOST_NAME_BYTES
}

/// Whether two of a table's names are one.
#[tactic(auto, unfolding(crate::specs::NewTable::names_repeat))]
pub(crate) fn names_repeat(name: &Name, history: &Name, view: &Name) -> bool
    ensures { result ≡ new.names_repeat name.now history.now view.now }
{
    is_named(history, name) || is_named(view, name) || is_named(view, history)
}

/// Whether one of a table's names stands for something already.
#[tactic(auto, unfolding(crate::specs::NewTable::names_used))]
pub(crate) fn names_used<D: Definitions>(defs: &D, name: &Name, history: &Name, view: &Name) -> bool
    ensures { result ≡ new.names_used (D.defs defs.now) name.now history.now view.now }
{
    defs.is_used(name) || defs.is_used(history) || defs.is_used(view)
}

/// Whether one of a table's names is too long.
#[tactic(auto, unfolding(crate::specs::NewTable::names_long))]
pub(crate) fn names_long(name: &Name, history: &Name, view: &Name) -> bool
    ensures { result ≡ new.names_long name.now history.now view.now }
{
    is_long(name) || is_long(history) || is_long(view)
}

fn any_ledger_name(columns: &[ColumnDef]) -> bool
    ensures { result ≡ list_any (λ c. spec.is_ledger_name c.name) columns.now }
{
    columns.iter().any(|column| is_ledger_name(&column.name))
}

/// Whether a column or a column of the key stands twice, or has a name that the ledger adds.
#[tactic(auto, unfolding(crate::specs::NewTable::columns_bad))]
fn columns_bad(alloc: Global, columns: &[ColumnDef], key: &[Name]) -> Result<bool, Memory>
    ensures { IfOk result (λ bad. bad ≡ new.columns_bad columns.now key.now) }
{
    Ok(repeats(alloc, columns)? || repeats(alloc, key)? || any_ledger_name(columns))
}

#[tactic(auto, unfolding(crate::specs::NewTable::columns_long))]
fn columns_long(columns: &[ColumnDef]) -> bool
    ensures { result ≡ new.columns_long columns.now }
{
    columns.iter().any(|column| is_long(&column.name))
}

fn any_out_of_range(columns: &[ColumnDef]) -> bool
    ensures { result ≡ list_any (λ c. not (is_in_range c.ty)) columns.now }
{
    columns.iter().any(|column| !column.ty.is_in_range())
}

/// Whether there are too many columns, columns of the key or tables, or a type is out of its range.
#[tactic(auto, unfolding(crate::specs::NewTable::counts_over))]
fn counts_over<D: Definitions>(defs: &D, columns: &[ColumnDef], key: &[Name]) -> bool
    ensures { result ≡ new.counts_over (D.defs defs.now) columns.now key.now }
{
    columns.len() > MOST_COLUMNS
        || key.len() > MOST_KEY_COLUMNS
        || defs.count() >= MOST_TABLES
        || any_out_of_range(columns)
}

fn is_null_in_key(key: &[Name], column: &ColumnDef) -> bool
    ensures { result ≡ (column.now.nullable && lists.has_name key.now column.now.name) }
{
    column.nullable && has_name(key, &column.name)
}

/// Whether a column of the key is declared NULL.
#[tactic(auto, unfolding(crate::specs::NewTable::key_null))]
fn key_null(columns: &[ColumnDef], key: &[Name]) -> bool
    ensures { result ≡ new.key_null columns.now key.now }
{
    columns.iter().any(|column| is_null_in_key(key, column))
}

fn place_in(key: &[Name], name: &Name) -> Option<usize>
    ensures place { result ≡ position (λ n. bytes_eq n name.now) key.now }
    ensures within { IfSome result (λ place. place < length key.now) }
{
    key.iter().position(|column| *column == *name)
}

/// The place of a column in the primary key, from 1, or 0 outside it.
fn key_position(key: &[Name], name: &Name) -> u8
    requires { length key.now ≤ 4 }
    ensures { result ≡ spec.key_position_of key.now name.now }
{
    match place_in(key, name) {
        Some(place) => place as u8 + 1,
        None => 0,
    }
}

/// The columns, each with its place in the primary key.
fn keyed(alloc: Global, columns: &[ColumnDef], key: &[Name]) -> Result<Items<ColumnDef>, Memory>
    requires { length key.now ≤ 4 }
    ensures { IfOk result (λ keyed. keyed ≡ map (spec.keyed key.now) columns.now) }
{
    let mut keyed = Vec::with_capacity(alloc, columns.len())?;
    for column in columns {
        keyed.push(ColumnDef {
            name: column.name.copy()?,
            ty: column.ty,
            nullable: column.nullable,
            key_position: key_position(key, &column.name),
        })?;
    }
    Ok(Items::from_vec(keyed))
}

/// The checks of a new table with this history and this view.
#[tactic(auto, unfolding(crate::specs::NewTable::new_check))]
fn check_new<D: Definitions>(
    alloc: Global,
    defs: &D,
    c: &CreateTable,
    history: &Name,
    view: &Name,
) -> Result<(), Refusal>
    ensures { MatchesUnlessOom (new.new_check (D.defs defs.now) c.now history.now view.now) result }
{
    let (columns, key) = (c.columns.as_slice(), c.key.as_slice());
    refuse_if(
        has_bad_name(alloc, defs, c, history, view)?,
        Refusal::NameConflict,
    )?;
    refuse_if(
        exceeds_limit(defs, c, history, view),
        Refusal::LimitExceeded,
    )?;
    refuse_if(!are_declared(columns, key), Refusal::NoSuchColumn)?;
    refuse_if(key_null(columns, key), Refusal::NullNotAllowed)
}

fn has_bad_name<D: Definitions>(
    alloc: Global,
    defs: &D,
    c: &CreateTable,
    history: &Name,
    view: &Name,
) -> Result<bool, Memory>
    ensures { IfOk result (λ bad. bad
        ≡ ((new.names_repeat c.now.name history.now view.now
        || new.names_used (D.defs defs.now) c.now.name history.now view.now)
        || new.columns_bad c.now.columns c.now.key)) }
{
    Ok(
        names_repeat(&c.name, history, view)
            || names_used(defs, &c.name, history, view)
            || columns_bad(alloc, c.columns.as_slice(), c.key.as_slice())?,
    )
}

fn exceeds_limit<D: Definitions>(defs: &D, c: &CreateTable, history: &Name, view: &Name) -> bool
    ensures { result
        ≡ ((new.counts_over (D.defs defs.now) c.now.columns c.now.key
        || new.names_long c.now.name history.now view.now) || new.columns_long c.now.columns) }
{
    counts_over(defs, c.columns.as_slice(), c.key.as_slice())
        || names_long(&c.name, history, view)
        || columns_long(c.columns.as_slice())
}

/// The definition of a new table beside those that are there, which are fewer than 2^32 - 1: NameConflict, LimitExceeded, NoSuchColumn
/// and NullNotAllowed, in this order, or NoMemory for want of memory. Its id is one more than their number.
#[tactic(auto, using(crate::proofs::NewTables::made, crate::proofs::NewTables::few_key))]
pub fn new_table<D: Definitions>(
    alloc: Global,
    defs: &D,
    c: &CreateTable,
) -> Result<TableDef, Refusal>
    requires { length (D.defs defs.now) < 2 ^ 32 - 1 }
    ensures { MatchesUnlessOom (spec.create_check (D.defs defs.now) c.now) result }
{
    let id = (defs.count() + 1) as TableId;
    let history = history_name(alloc, c.kind, id, &c.history)?;
    let view = view_name(alloc, &c.name, &c.view)?;
    check_new(alloc, defs, c, &history, &view)?;
    Ok(TableDef {
        id,
        name: c.name.copy()?,
        kind: c.kind,
        gone: false,
        history,
        view,
        columns: keyed(alloc, c.columns.as_slice(), c.key.as_slice())?,
        dropped: Items::new(alloc),
        indexes: Items::new(alloc),
    })
}
