//! CREATE INDEX: its checks, and the index that it makes.

ghost use Rattle.std.specs.Prelude.{◌≡◌, ◌≢◌, ◌<◌, ◌-◌, ◌^◌, ◌||◌, nat_lt, nat_le, IfOk, MatchResult, Ok, Err, map, length};
ghost use Rattle.sql_value.specs.declared.refusal.Refusal.TheVariants.{NoMemory};
ghost use Rattle.spec_model.specs.Columns.{place_of};
ghost use Rattle.spec_model.specs.Lists as lists;
ghost use Rattle.spec_model.specs.Create as spec;

use crate::creating::is_long;
use crate::names::{Named, has_name, repeats};
use crate::rows::{are_live, is_standing, refuse_if};
use base_types::{Items, Memory, Name};
use sql_parts::{LiveColumns, place_of as column_place};
use sql_types::{CreateIndex, IndexDef, Part, TableDef};
use sql_value::{ColumnDef, Refusal};
use std::alloc::Global;

/// The most columns of an index.
const MOST_INDEX_COLUMNS: usize = 4;

/// The most indexes of a table.
const MOST_INDEXES: usize = 4;

impl Named for IndexDef {
    ghost named = { λ i. i.name };

    fn name(&self) -> &Name {
        &self.name
    }
}

/// Whether the index's name is taken in its table, or a column stands twice.
fn has_taken_name(alloc: Global, def: &TableDef, c: &CreateIndex) -> Result<bool, Memory>
    ensures { IfOk result (λ taken. taken ≡ (lists.has_name (map (λ i. i.name) def.now.indexes) c.now.name
        || lists.repeats c.now.columns)) }
{
    Ok(has_name(def.indexes.as_slice(), &c.name) || repeats(alloc, c.columns.as_slice())?)
}

/// Whether there are too many columns or indexes, or the name is too long.
fn is_over(def: &TableDef, c: &CreateIndex) -> bool
    ensures { result ≡ ((nat_lt 4 (length c.now.columns) || nat_le 4 (length def.now.indexes))
        || spec.is_long c.now.name) }
{
    c.columns.len() > MOST_INDEX_COLUMNS || def.indexes.len() >= MOST_INDEXES || is_long(&c.name)
}

/// The ordinal of a column, which is its place counted from 1, or 0 where there is no such column. A table
/// has fewer than 65,535 columns.
fn ordinal_of(columns: &[ColumnDef], name: &Name) -> u16
    requires { length columns.now < 2 ^ 16 - 1 }
    ensures { result ≡ spec.ordinal_at (place_of columns.now name.now) }
{
    match column_place(columns, name) {
        Some(place) => place as u16 + 1,
        None => 0,
    }
}

fn ordinals_of(alloc: Global, columns: &[ColumnDef], names: &[Name]) -> Result<Items<u16>, Memory>
    requires { length columns.now < 2 ^ 16 - 1 }
    ensures { IfOk result (λ ordinals. ordinals ≡ spec.ordinals_of columns.now names.now) }
{
    let mut ordinals = Vec::with_capacity(alloc, names.len())?;
    for name in names {
        ordinals.push(ordinal_of(columns, name))?;
    }
    Ok(Items::from_vec(ordinals))
}

/// The checks of a new index of a table, of which the statement names this part: NameConflict, LimitExceeded, ReadOnlyTable and NoSuchColumn, in
/// this order, or NoMemory for want of memory; and the index. The table has fewer than 65,535 columns.
pub fn new_index(
    alloc: Global,
    def: &TableDef,
    part: Part,
    c: &CreateIndex,
) -> Result<IndexDef, Refusal>
    requires { length def.now.columns < 2 ^ 16 - 1 }
    ensures { MatchResult result (λ index. spec.index_check_in c.now (def.now, part) ≡ Ok (def.now, index))
        (λ e. e ≢ NoMemory → spec.index_check_in c.now (def.now, part) ≡ Err e) }
{
    let columns = def.columns.as_slice();
    refuse_if(has_taken_name(alloc, def, c)?, Refusal::NameConflict)?;
    refuse_if(is_over(def, c), Refusal::LimitExceeded)?;
    refuse_if(!is_standing(def, part), Refusal::ReadOnlyTable)?;
    refuse_if(
        !are_live(&LiveColumns::of(def), c.columns.as_slice()),
        Refusal::NoSuchColumn,
    )?;
    Ok(IndexDef {
        name: c.name.copy()?,
        ordinals: ordinals_of(alloc, columns, c.columns.as_slice())?,
    })
}
