//! Whether the names of tables are new.

ghost use Rattle.std.specs.Prelude.{◌≡◌, ◌∷◌, [], IfOk, IsSorted, option_map, ℕ, List};
ghost use Rattle.std.specs.Borrow.{Bor};
ghost use Rattle.std.specs.List.{list_all, list_any};
ghost use Rattle.spec_model.specs.Create.{all_names};
ghost use Rattle.spec_model.specs.Lists.{has_name, repeats};
ghost use Rattle.spec_model.specs.Rows.{value_or_null, values_of};
ghost use Rattle.spec_model.specs.SystemTables.{tables_def, columns_def};
ghost use Rattle.law_catalog_rows.specs.IsEncodableDef.{names_in as spec_names_in, text_of as spec_text_of};
ghost use Rattle.spec_rules.specs.Places.{PlacedRow};
ghost use Rattle.spec_rules.specs.Rows.{in_force};
ghost use Rattle.spec_rules.specs.TableNames as spec;
ghost use Rattle.audit_rules.specs.InForce as standing;
ghost use Rattle.audit_rules.specs.Seen.{row_of, seen, texts, table_cmp};

use crate::rows::{PlacedVersion, is_before, is_same_thing};
use audit_columns::Rank;
use audit_definitions::{is_system_name, row_has_name};
use base_types::Memory;
use sql_types::{TypedValue, Version};
use sql_value::Value;
use std::alloc::Global;

fn text_of(value: &Option<TypedValue>) -> Option<&[u8]>
    ensures { option_map (λ (b : Bor (List ℕ)). b.now) result ≡ spec_text_of (value_or_null value.now) }
{
    match value {
        Some(
            TypedValue {
                value: Value::Text(text),
                ..
            },
        ) => Some(text.bytes()),
        _ => None,
    }
}

/// The names in a row of the table of tables: of the table, its history and its view.
fn names_in<'a>(alloc: Global, version: &'a Version) -> Result<Vec<&'a [u8]>, Memory>
    ensures { IfOk result (λ names. texts names.items ≡ spec_names_in (values_of version.now)) }
{
    let mut names = Vec::new(alloc);
    for value in version.values.as_slice() {
        if let Some(name) = text_of(value) {
            names.push(name)?;
        }
    }
    Ok(names)
}

fn is_among(names: &[&[u8]], name: &[u8]) -> bool
    ensures { result ≡ has_name (texts names.now) name.now }
{
    for own in names {
        if *own == name {
            return true;
        }
    }
    false
}

/// Whether two of the names are one.
fn repeat(names: &[&[u8]]) -> bool
    ensures { result ≡ repeats (texts names.now) }
{
    for at in 0..names.len() {
        if is_among(&names[at + 1..], names[at]) {
            return true;
        }
    }
    false
}

fn have_system_name(names: &[&[u8]]) -> bool
    ensures { result ≡ list_any (has_name (all_names (tables_def ∷ columns_def ∷ []))) (texts names.now) }
{
    for name in names {
        if is_system_name(*name) {
            return true;
        }
    }
    false
}

/// Whether one of the names stands in the row.
fn shares_name(row: &PlacedVersion, names: &[&[u8]]) -> bool
    ensures { result ≡ list_any (has_name (spec.names_of_table (row_of row.now))) (texts names.now) }
{
    for name in names {
        if row_has_name(row.version, *name) {
            return true;
        }
    }
    false
}

/// Whether one of these rows, which stand behind this one, is about its table and stands after it and before the place.
fn is_superseded(place: Rank, row: &PlacedVersion, rest: &[PlacedVersion]) -> bool
    ensures { result ≡ standing.is_superseded place (row_of row.now) (seen rest.now) }
{
    for other in rest {
        if !is_same_thing(0, other, row) || !is_before(other.place, place) {
            return false;
        }
        if is_before(row.place, other.place) {
            return true;
        }
    }
    false
}

/// Whether a table has one of the names at the place. The rows of the table of tables stand by the table that they are
/// about and then by place.
#[tactic(auto, using(crate::proofs::InForce::any_standing_is))]
fn are_taken(by_table: &[PlacedVersion], names: &[&[u8]], place: Rank) -> bool
    requires { IsSorted table_cmp by_table.now }
    ensures { result ≡ list_any (λ (b : PlacedRow). list_any (has_name (spec.names_of_table b)) (texts names.now))
        (in_force 0 place (seen by_table.now)) }
{
    is_one_standing(by_table, names, place)
}

fn is_one_standing(by_table: &[PlacedVersion], names: &[&[u8]], place: Rank) -> bool
    ensures { result ≡ standing.any_standing
        (λ (b : PlacedRow). list_any (has_name (spec.names_of_table b)) (texts names.now)) place (seen by_table.now) }
{
    for at in 0..by_table.len() {
        let row = &by_table[at];
        if is_before(row.place, place)
            && shares_name(row, names)
            && !is_superseded(place, row, &by_table[at + 1..])
        {
            return true;
        }
    }
    false
}

/// Whether the names in the row differ from each other, and none is that of a system table, or one that a table has
/// then.
fn are_new(alloc: Global, by_table: &[PlacedVersion], row: &PlacedVersion) -> Result<bool, Memory>
    requires { IsSorted table_cmp by_table.now }
    ensures { IfOk result (λ are. are ≡ spec.names_are_new (seen by_table.now) (row_of row.now)) }
{
    let names = names_in(alloc, row.version)?;
    Ok(!repeat(&names) && !have_system_name(&names) && !are_taken(by_table, &names, row.place))
}

/// Whether so it is with each of the rows.
pub(crate) fn table_names_are_new(
    alloc: Global,
    by_table: &[PlacedVersion],
    own: &[PlacedVersion],
) -> Result<bool, Memory>
    requires { IsSorted table_cmp by_table.now }
    ensures { IfOk result (λ are. are ≡ list_all (spec.names_are_new (seen by_table.now)) (seen own.now)) }
{
    for row in own {
        if !are_new(alloc, by_table, row)? {
            return Ok(false);
        }
    }
    Ok(true)
}
