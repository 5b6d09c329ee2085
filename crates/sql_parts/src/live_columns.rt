//! The columns of a table that weren't dropped, and which were.

ghost use Rattle.std.specs.Prelude.{◌≡◌, ◌++◌, IfOk, OnOk, map};
ghost use Rattle.std.specs.Option.{option_copied};
ghost use Rattle.spec_model.specs.Checks.{is_declared};
ghost use Rattle.spec_model.specs.Columns as spec;
ghost use Rattle.spec_model.specs.Lists as lists;
ghost use Rattle.spec_model.specs.LiveColumns as live;
ghost use Rattle.sql_parts.specs.Dropped.{first_live, flags_from, flagged, unless, unflagged};

use crate::columns::column_of;
use base_types::{Memory, Name};
use sql_types::TableDef;
use sql_value::ColumnDef;
use std::alloc::Global;
use std::marker::Model;

/// Whether the column with this ordinal was dropped.
pub fn is_dropped(def: &TableDef, ordinal: usize) -> bool
    ensures { result ≡ live.is_dropped def.now ordinal }
{
    is_among(def.dropped.as_slice(), ordinal)
}

fn is_among(numbers: &[u16], n: usize) -> bool
    ensures { result ≡ lists.is_among numbers.now n }
{
    numbers.iter().any(|number| *number as usize == n)
}

/// The columns of a table that weren't dropped, which contracts see as their list. Nothing is copied.
#[derive(Debug, Drop)]
pub struct LiveColumns<'a> {
    declared: &'a [ColumnDef],
    dropped: &'a [u16],
}

impl<'a> Model for LiveColumns<'a> {
    ghost use Rattle.std.specs.Prelude.{List};
    ghost use Rattle.sql_value.specs.declared.column.ColumnDef.{ColumnDef};
    ghost use Rattle.spec_model.specs.Lists.{without};

    ghost Value = { List ColumnDef };

    ghost view = { λ c. without c.dropped.now c.declared.now };
}

impl<'a> LiveColumns<'a> {
    /// Those of a table. Takes no memory.
    pub fn of(def: &'a TableDef) -> LiveColumns<'a>
        ensures { result ≡ live.live_columns def.now }
    {
        LiveColumns {
            declared: def.columns.as_slice(),
            dropped: def.dropped.as_slice(),
        }
    }

    /// The column of this name.
    pub fn column_of(&self, name: &Name) -> Option<&'a ColumnDef>
        ensures { option_copied result ≡ spec.column_of self.now name.now }
    {
        live_column_of(self.declared, self.dropped, name)
    }

    /// Whether a column has this name.
    #[tactic(auto, using(crate::proofs::Dropped::is_there, crate::proofs::Dropped::copied_there))]
    pub fn has(&self, name: &Name) -> bool
        ensures { result ≡ is_declared self.now name.now }
    {
        self.column_of(name).is_some()
    }

    /// All of them, in their order.
    pub fn all(&self, alloc: Global) -> Result<Vec<&'a ColumnDef>, Memory>
        ensures { IfOk result (λ all. map (λ c. c.now) all.items ≡ self.now) }
    {
        all_live(alloc, self.declared, self.dropped)
    }
}

/// The column of this name that wasn't dropped.
#[tactic(auto, using(crate::proofs::Dropped::live_named, crate::proofs::Dropped::none_dropped))]
fn live_column_of<'a>(
    declared: &'a [ColumnDef],
    dropped: &[u16],
    name: &Name,
) -> Option<&'a ColumnDef>
    ensures { option_copied result ≡ spec.column_of (lists.without dropped.now declared.now) name.now }
{
    if dropped.is_empty() {
        return column_of(declared, name);
    }
    first_live_of(declared, dropped, name)
}

/// The first column of this name that is not among the dropped.
fn first_live_of<'a>(
    declared: &'a [ColumnDef],
    dropped: &[u16],
    name: &Name,
) -> Option<&'a ColumnDef>
    ensures { option_copied result ≡ first_live dropped.now name.now 1 declared.now }
{
    for place in 0..declared.len() {
        let column = &declared[place];
        if column.name == *name && !is_among(dropped, place + 1) {
            return Some(column);
        }
    }
    None
}

/// All columns that weren't dropped.
#[tactic(auto, using(crate::proofs::Dropped::all_unflagged, crate::proofs::Dropped::none_dropped))]
fn all_live<'a>(
    alloc: Global,
    declared: &'a [ColumnDef],
    dropped: &[u16],
) -> Result<Vec<&'a ColumnDef>, Memory>
    ensures { IfOk result (λ all. map (λ c. c.now) all.items ≡ lists.without dropped.now declared.now) }
{
    if dropped.is_empty() {
        return all_columns(alloc, declared);
    }
    let flags = dropped_flags(alloc, dropped, declared.len())?;
    unflagged_columns(alloc, &flags, declared)
}

fn all_columns<'a>(alloc: Global, declared: &'a [ColumnDef]) -> Result<Vec<&'a ColumnDef>, Memory>
    ensures { IfOk result (λ all. map (λ c. c.now) all.items ≡ declared.now) }
{
    let mut all = Vec::with_capacity(alloc, declared.len())?;
    for column in declared {
        all.push(column)?;
    }
    Ok(all)
}

/// The columns whose flags are false.
fn unflagged_columns<'a>(
    alloc: Global,
    flags: &[bool],
    declared: &'a [ColumnDef],
) -> Result<Vec<&'a ColumnDef>, Memory>
    ensures { IfOk result (λ found. map (λ c. c.now) found.items ≡ unflagged flags.now declared.now) }
{
    let mut found = Vec::new(alloc);
    for place in 0..declared.len().min(flags.len()) {
        push_unless(&mut found, flags[place], &declared[place])?;
    }
    Ok(found)
}

fn push_unless<'a>(
    found: &mut Vec<&'a ColumnDef>,
    flag: bool,
    column: &'a ColumnDef,
) -> Result<(), Memory>
    ensures { OnOk result (map (λ c. c.now) found.new.items
        ≡ map (λ c. c.now) found.old.items ++ unless flag column.now) }
{
    if !flag {
        found.push(column)?;
    }
    Ok(())
}

/// For each ordinal from 1 to `count`, whether it is among the dropped. Looks at each of these once.
pub fn dropped_flags(alloc: Global, dropped: &[u16], count: usize) -> Result<Vec<bool>, Memory>
    ensures { IfOk result (λ flags. flags.items ≡ flags_from dropped.now 1 count) }
{
    let mut flags = vec![in alloc; false; count]?;
    for ordinal in dropped {
        set_flag(&mut flags, *ordinal as usize);
    }
    Ok(flags)
}

/// Sets the flag of an ordinal, where it has one.
fn set_flag(flags: &mut Vec<bool>, ordinal: usize)
    ensures { flags.new.items ≡ flagged flags.old.items ordinal }
{
    if 1 <= ordinal && ordinal <= flags.len() {
        flags[ordinal - 1] = true;
    }
}
