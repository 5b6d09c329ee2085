//! CREATE TABLE and CREATE INDEX: a function for each rule.

ghost use Rattle.std.specs.Prelude.{◌≡◌, ◌||◌, ℕ, List, map, IfOk, OnOk};
ghost use Rattle.std.specs.Str.{bytes_eq};
ghost use Rattle.sql_parse.specs.NameSet.{has};
ghost use Rattle.spec_syntax.specs.Input.{ParsesUnlessOom, ConvertsUnlessOom};
ghost use Rattle.spec_syntax.specs.Table as spec;

use crate::column::{items, no_items};
use crate::cursor::Cursor;
use crate::ledger::ledger_part;
use crate::name::name;
use crate::row::name_list;
use base_types::{Items, Memory, Name};
use spec_syntax::{Column, Ledger, ParseErr, Tag};
use sql_types::{CreateIndex, CreateTable};
use sql_value::ColumnDef;
use std::alloc::Global;
use std::collections::BTreeSet;

#[tactic(auto, using(crate::proofs::NameSets::added))]
fn add_name<'a>(names: &mut BTreeSet<&'a str>, name: &'a Name) -> Result<(), Memory>
    ensures { OnOk result ((q : List ℕ) → has names.new q ≡ (bytes_eq name.now q || has names.old q)) }
{
    names.insert(name.as_str())?;
    Ok(())
}

/// The names in an ordered set.
#[tactic(auto, using(crate::proofs::NameSets::in_more))]
fn set_of(alloc: Global, names: &[Name]) -> Result<BTreeSet<&str>, Memory>
    ensures { IfOk result (λ set. (q : List ℕ) → has set q ≡ spec.is_in names.now q) }
{
    let mut set = BTreeSet::new(alloc);
    let mut at = names.len();
    while at > 0 {
        at -= 1;
        add_name(&mut set, &names[at])?;
    }
    Ok(set)
}

fn is_in(set: &BTreeSet<&str>, name: &Name) -> bool
    ensures { result ≡ has set.now name.now }
{
    set.contains(name.as_str())
}

/// What is written, else whether the column is outside the key.
fn nullable_of(written: Option<bool>, in_key: bool) -> bool
    ensures { result ≡ spec.nullable_of written in_key }
{
    match written {
        Some(nullable) => nullable,
        None => !in_key,
    }
}

fn column_def(key: &BTreeSet<&str>, column: Column) -> ColumnDef
    ensures { (names : List (List ℕ)) → ((q : List ℕ) → has key.now q ≡ spec.is_in names q)
        → result ≡ spec.column_def names column }
{
    let Column { name, ty, nullable } = column;
    let nullable = nullable_of(nullable, is_in(key, &name));
    ColumnDef {
        name,
        ty,
        nullable,
        key_position: 0,
    }
}

/// The columns, each with what it says of NULL, or whether it is outside the key. The key's names are put into a
/// set.
fn column_defs(
    alloc: Global,
    key: &[Name],
    columns: Items<Column>,
) -> Result<Items<ColumnDef>, Memory>
    ensures { IfOk result (λ defs. defs ≡ map (spec.column_def key.now) columns) }
{
    let names = set_of(alloc, key)?;
    let mut defs = Items::new(alloc);
    for column in columns.into_vec() {
        defs.push(column_def(&names, column))?;
    }
    Ok(defs)
}

/// A table of these columns, which must be some, with this key, which must be there.
fn table_of(
    alloc: Global,
    name: Name,
    columns: Items<Column>,
    key: Option<Items<Name>>,
    ledger: Ledger,
) -> Result<CreateTable, ParseErr>
    ensures { ConvertsUnlessOom (spec.table_of name columns key ledger) result }
{
    let Some(key) = key else {
        return Err(ParseErr::Syntax);
    };
    if columns.is_empty() {
        return Err(ParseErr::Syntax);
    }
    let columns = column_defs(alloc, key.as_slice(), columns)?;
    let Ledger {
        kind,
        history,
        view,
    } = ledger;
    Ok(CreateTable {
        name,
        columns,
        key,
        kind,
        history,
        view,
    })
}

/// What stands behind CREATE TABLE.
#[tactic(auto, unfolding(spec_syntax::specs::Table::create_table))]
pub(crate) fn create_table(alloc: Global, c: &mut Cursor<'_>) -> Result<CreateTable, ParseErr>
    ensures { ParsesUnlessOom (spec.create_table c.old) result c.new }
{
    let name = name(alloc, c)?;
    c.expect(Tag::Open)?;
    let draft = items(alloc, c, no_items(alloc))?;
    c.expect(Tag::Close)?;
    let ledger = ledger_part(alloc, c)?;
    table_of(alloc, name, draft.columns, draft.key, ledger)
}

/// What stands behind CREATE INDEX.
#[tactic(auto, unfolding(spec_syntax::specs::Table::create_index))]
pub(crate) fn create_index(alloc: Global, c: &mut Cursor<'_>) -> Result<CreateIndex, ParseErr>
    ensures { ParsesUnlessOom (spec.create_index c.old) result c.new }
{
    let index = name(alloc, c)?;
    c.expect(Tag::On)?;
    let table = name(alloc, c)?;
    let columns = name_list(alloc, c)?;
    Ok(CreateIndex {
        name: index,
        table,
        columns,
    })
}
