//! The columns to which the values of an INSERT go.

ghost use Rattle.std.specs.Prelude.{◌≡◌, IfOk, Some, map};
ghost use Rattle.spec_model.specs.Changes as spec;
ghost use Rattle.spec_model.specs.Columns.{names_of};
ghost use Rattle.spec_model.specs.Lists.{or_else};
ghost use Rattle.spec_model.specs.LiveColumns.{live_columns};

use base_types::{Items, Memory, Name};
use sql_parts::LiveColumns;
use sql_types::TableDef;
use sql_value::ColumnDef;
use std::alloc::Global;
use std::marker::Model;

/// The names of the columns to which the values of an INSERT go, which contracts see as a list that may be
/// missing: those that it lists, or else, in a table of which columns were dropped, those that weren't. Where they
/// are missing, the values go to all declared columns.
#[derive(Debug, Drop)]
pub struct WrittenNames<'a> {
    listed: &'a Option<Items<Name>>,
    live: Option<Items<Name>>,
}

impl<'a> Model for WrittenNames<'a> {
    ghost use Rattle.std.specs.Prelude.{ℕ, List, Option};
    ghost use Rattle.spec_model.specs.Lists.{or_else};

    ghost Value = { Option (List (List ℕ)) };

    ghost view = { λ n. or_else n.live n.listed.now };
}

impl<'a> WrittenNames<'a> {
    /// Those of an INSERT into the table, which lists these. Takes memory where names are missing and columns were
    /// dropped alone.
    pub fn of(
        alloc: Global,
        def: &TableDef,
        listed: &'a Option<Items<Name>>,
    ) -> Result<WrittenNames<'a>, Memory>
        ensures { IfOk result (λ names. names ≡ spec.written_names def.now listed.now) }
    {
        let live = implied_names(alloc, def, listed)?;
        Ok(WrittenNames { listed, live })
    }

    pub fn get(&self) -> &Option<Items<Name>>
        ensures { result.now ≡ self.now }
    {
        if self.live.is_some() {
            &self.live
        } else {
            self.listed
        }
    }
}

/// The names of the columns that weren't dropped, where some were and an INSERT lists none.
#[tactic(auto, using(crate::proofs::LiveNames::live_where_unlisted))]
fn implied_names(
    alloc: Global,
    def: &TableDef,
    listed: &Option<Items<Name>>,
) -> Result<Option<Items<Name>>, Memory>
    ensures { IfOk result (λ implied. or_else implied listed.now ≡ spec.written_names def.now listed.now) }
{
    if def.dropped.is_empty() || listed.is_some() {
        return Ok(None);
    }
    Ok(Some(live_names(alloc, def)?))
}

/// The names of the columns that weren't dropped.
fn live_names(alloc: Global, def: &TableDef) -> Result<Items<Name>, Memory>
    ensures { IfOk result (λ names. names ≡ names_of (live_columns def.now)) }
{
    let live = LiveColumns::of(def).all(alloc)?;
    names_of_each(alloc, &live)
}

fn names_of_each(alloc: Global, columns: &[&ColumnDef]) -> Result<Items<Name>, Memory>
    ensures { IfOk result (λ names. names ≡ names_of (map (λ c. c.now) columns.now)) }
{
    let mut names = Vec::with_capacity(alloc, columns.len())?;
    for column in columns {
        names.push(column.name.copy()?)?;
    }
    Ok(Items::from_vec(names))
}
