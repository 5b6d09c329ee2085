//! The rows that INSERT keeps.

ghost use Rattle.std.specs.Prelude.{◌≡◌, ◌≢◌, [], Ok, Err, IfErr, OnOk};
ghost use Rattle.sql_value.specs.declared.refusal.Refusal.TheVariants.{NoMemory};
ghost use Rattle.spec_model.specs.Changes as spec;
ghost use Rattle.spec_model.specs.Keys as keys;
ghost use Rattle.spec_model.specs.Lists.{checked_fold};
ghost use Rattle.spec_model.specs.Refusals.{MatchesUnlessOom, and_then};
ghost use Rattle.sql_change.specs.KeyOrder.{InKeyOrder, place_of};

use crate::among::KeptRows;
use crate::keeping::{arranged, kept_row};
use base_types::{Items, Name};
use sql_parts::{KeyedTable, LiveVersions};
use sql_types::Row;
use sql_value::{ColumnDef, Refusal, Value};
use std::alloc::Global;

/// Whether a row of the row's key stands, or is among those before it, where its key has this place.
#[tactic(auto, unfolding(spec_model::specs::Changes::is_duplicate))]
fn is_duplicate<R: LiveVersions>(
    table: &KeyedTable,
    versions: &R,
    before: &KeptRows,
    place: usize,
    row: &Row,
) -> bool
    requires of_table { R.are_of versions.now table.now }
    requires in_order { InKeyOrder table.now.columns before.now.rows before.now.by_key.items }
    requires here { place ≡ place_of table.now.columns before.now.rows row.now before.now.by_key.items }
    ensures { result ≡ spec.is_duplicate table.now.columns (R.versions versions.now) before.now.rows
        (keys.key_of table.now.columns row.now) }
{
    versions.has_key_of(table, row) || before.has_key_of(table, place, row)
}

/// Adds a row to those before it, where none of its key stands or is among them.
fn add_row<R: LiveVersions>(
    table: &KeyedTable,
    versions: &R,
    before: &mut KeptRows,
    row: Row,
) -> Result<(), Refusal>
    requires of_table { R.are_of versions.now table.now }
    requires in_order { InKeyOrder table.now.columns before.old.rows before.old.by_key.items }
    ensures ok { OnOk result (spec.one_more table.now.columns (R.versions versions.now) before.old.rows row
        ≡ Ok before.new.rows) }
    ensures in_order { OnOk result
        (InKeyOrder table.now.columns before.new.rows before.new.by_key.items) }
    ensures err { IfErr result (λ e. e ≢ NoMemory →
        spec.one_more table.now.columns (R.versions versions.now) before.old.rows row ≡ Err e) }
{
    let place = before.place_of(table, &row);
    if is_duplicate(table, versions, before, place, &row) {
        return Err(Refusal::DuplicateKey);
    }
    before.add(place, row)?;
    Ok(())
}

fn kept_as_listed(
    alloc: Global,
    columns: &[ColumnDef],
    names: &Option<Items<Name>>,
    row: &[Value],
) -> Result<Row, Refusal>
    ensures { MatchesUnlessOom (spec.kept_row columns.now (spec.arranged columns.now names.now row.now)) result }
{
    let row = arranged(alloc, columns, names, row)?;
    kept_row(alloc, columns, row)
}

/// The rows of VALUES as they are kept, in written order. A row is refused with DuplicateKey where one of its key
/// stands, or is among those before it. Of n rows each is looked up once where `versions` finds those that
/// stand, and once by halving among those before it.
#[tactic(auto, unfolding(spec_model::specs::Changes::inserted_rows))]
pub(crate) fn inserted_rows<R: LiveVersions>(
    alloc: Global,
    table: &KeyedTable,
    versions: &R,
    names: &Option<Items<Name>>,
    rows: &[Row],
) -> Result<Items<Row>, Refusal>
    requires { R.are_of versions.now table.now }
    ensures { MatchesUnlessOom
        (spec.inserted_rows table.now.columns (R.versions versions.now) names.now rows.now) result }
{
    one_by_one(alloc, table, versions, names, rows)
}

/// The rows one after another, each beside those before it.
fn one_by_one<R: LiveVersions>(
    alloc: Global,
    table: &KeyedTable,
    versions: &R,
    names: &Option<Items<Name>>,
    rows: &[Row],
) -> Result<Items<Row>, Refusal>
    requires { R.are_of versions.now table.now }
    ensures { MatchesUnlessOom
        (checked_fold
        (λ before row.
        and_then (spec.kept_row table.now.columns (spec.arranged table.now.columns names.now row))
        (spec.one_more table.now.columns (R.versions versions.now) before)) [] rows.now) result }
{
    let mut before = KeptRows::new(alloc);
    for row in rows {
        let row = kept_as_listed(alloc, table.columns(), names, row.as_slice())?;
        add_row(table, versions, &mut before, row)?;
    }
    let KeptRows { rows, by_key: _ } = before;
    Ok(rows)
}
