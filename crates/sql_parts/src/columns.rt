//! The columns of a table's parts.

ghost use Rattle.std.specs.Prelude.{◌≡◌, ◌<◌, IfSome, length, map, option_map, position};
ghost use Rattle.std.specs.Str.{bytes_eq};
ghost use Rattle.std.specs.Option.{option_copied};
ghost use Rattle.spec_model.specs.Columns as spec;
ghost use Rattle.spec_model.specs.Parts.{added, added_column, columns_of, shown_of};

use base_types::Name;
use sql_types::{Part, TableDef};
use sql_value::{ColumnDef, SqlType};
use std::marker::Model;

/// The names and types of the start of a version. A base table and a system table hide these columns.
const START_COLUMNS: [(&str, SqlType); 2] = [
    ("ledger_start_transaction_id", SqlType::BigInt),
    ("ledger_start_sequence_number", SqlType::BigInt),
];

/// The names and types of the start and the end of a version.
const HISTORY_COLUMNS: [(&str, SqlType); 4] = [
    ("ledger_start_transaction_id", SqlType::BigInt),
    ("ledger_end_transaction_id", SqlType::BigInt),
    ("ledger_start_sequence_number", SqlType::BigInt),
    ("ledger_end_sequence_number", SqlType::BigInt),
];

/// The names and types of a start or an end: its transaction, its number, and 1 with INSERT or 2 with DELETE.
const VIEW_COLUMNS: [(&str, SqlType); 4] = [
    ("ledger_transaction_id", SqlType::BigInt),
    ("ledger_sequence_number", SqlType::BigInt),
    ("ledger_operation_type", SqlType::Int),
    ("ledger_operation_type_desc", SqlType::NVarChar { n: 6 }),
];

/// The place of the column of this name, counted from 0.
pub fn place_of(columns: &[ColumnDef], name: &Name) -> Option<usize>
    ensures { result ≡ spec.place_of columns.now name.now }
{
    columns.iter().position(|column| column.name == *name)
}

/// The column of this name.
pub fn column_of<'a>(columns: &'a [ColumnDef], name: &Name) -> Option<&'a ColumnDef>
    ensures { option_copied result ≡ spec.column_of columns.now name.now }
{
    columns.get(place_of(columns, name)?)
}

/// The columns of a part of a table, which contracts see as their list: the declared ones, and then those
/// that the part adds. Nothing is copied.
#[derive(Debug, Drop)]
pub struct Columns<'a> {
    declared: &'a [ColumnDef],
    part: Part,
}

impl<'a> Model for Columns<'a> {
    ghost use Rattle.std.specs.Prelude.{List, ◌++◌};
    ghost use Rattle.sql_value.specs.declared.column.ColumnDef.{ColumnDef};
    ghost use Rattle.spec_model.specs.Parts.{added};

    ghost Value = { List ColumnDef };

    ghost view = { λ c. c.declared.now ++ added c.part };
}

impl<'a> Columns<'a> {
    /// Those of a part of the table. Takes no memory.
    pub fn of(def: &'a TableDef, part: Part) -> Columns<'a>
        ensures { result ≡ columns_of def.now part }
    {
        Columns {
            declared: def.columns.as_slice(),
            part,
        }
    }

    /// The place of the column of this name, counted from 0.
    #[tactic(auto, using(crate::proofs::AddedColumns::place_of_both))]
    pub fn place_of(&self, name: &Name) -> Option<usize>
        ensures { result ≡ spec.place_of self.now name.now }
    {
        match place_of(self.declared, name) {
            Some(place) => Some(place),
            None => match place_added(self.part, name) {
                Some(place) => Some(self.declared.len() + place),
                None => None,
            },
        }
    }

    /// The type of the column of this name.
    #[tactic(auto, using(crate::proofs::AddedColumns::column_of_both))]
    pub fn type_of(&self, name: &Name) -> Option<SqlType>
        ensures { result ≡ option_map (λ c. c.ty) (spec.column_of self.now name.now) }
    {
        match column_of(self.declared, name) {
            Some(column) => Some(column.ty),
            None => type_added(self.part, name),
        }
    }
}

/// The place of the column of this name among those that a part adds.
fn place_added(part: Part, name: &Name) -> Option<usize>
    ensures place { result ≡ spec.place_of (added part) name.now }
    ensures within { IfSome result (λ place. place < 4) }
{
    match part {
        Part::Base | Part::System => place_among(&START_COLUMNS, name),
        Part::History => place_among(&HISTORY_COLUMNS, name),
        Part::View => place_among(&VIEW_COLUMNS, name),
    }
}

/// The type of the column of this name among those that a part adds.
fn type_added(part: Part, name: &Name) -> Option<SqlType>
    ensures { result ≡ option_map (λ c. c.ty) (spec.column_of (added part) name.now) }
{
    match part {
        Part::Base | Part::System => type_among(&START_COLUMNS, name),
        Part::History => type_among(&HISTORY_COLUMNS, name),
        Part::View => type_among(&VIEW_COLUMNS, name),
    }
}

fn place_among(added: &[(&str, SqlType)], name: &Name) -> Option<usize>
    ensures place { result ≡ spec.place_of (map (λ a. added_column a.0.now a.1) added.now) name.now }
    ensures within { IfSome result (λ place. place < length added.now) }
{
    place_named(added, name)
}

fn place_named(added: &[(&str, SqlType)], name: &Name) -> Option<usize>
    ensures place { result ≡ position (λ a. bytes_eq a.0.now name.now) added.now }
    ensures within { IfSome result (λ place. place < length added.now) }
{
    added.iter().position(|column| *column.0 == *name.as_str())
}

#[tactic(auto, using(crate::proofs::AddedColumns::type_in_added))]
fn type_among(added: &[(&str, SqlType)], name: &Name) -> Option<SqlType>
    ensures { result
        ≡ option_map (λ c. c.ty) (spec.column_of (map (λ a. added_column a.0.now a.1) added.now) name.now) }
{
    match place_among(added, name) {
        Some(place) => Some(added[place].1),
        None => None,
    }
}

/// How many leading columns of a part `*` gives.
pub fn shown(def: &TableDef, part: Part) -> usize
    ensures { result ≡ shown_of def.now part }
{
    let declared = def.columns.as_slice().len();
    match part {
        Part::Base | Part::System => declared,
        Part::History => declared + HISTORY_COLUMNS.len(),
        Part::View => declared + VIEW_COLUMNS.len(),
    }
}
