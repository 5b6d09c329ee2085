//! Which names a definition may have.

ghost use Rattle.std.specs.Prelude.{◌≡◌, ◌&&◌, ◌∷◌, [], map, filter_map};
ghost use Rattle.std.specs.List.{list_all, list_any};
ghost use Rattle.audit_definitions.specs.DefinitionRows.{rows_seen};
ghost use Rattle.audit_definitions.specs.Numbers.{before_number};
ghost use Rattle.spec_model.specs.Create as create;
ghost use Rattle.spec_model.specs.Lists.{repeats, has_name};
ghost use Rattle.spec_model.specs.SystemTables.{tables_def, columns_def};
ghost use Rattle.spec_model.specs.Rows.{values_of, value_or_null};
ghost use Rattle.law_catalog_rows.specs.IsEncodableDef as spec;

use crate::first_values::table_of;
use base_types::Name;
use sql_types::{IndexDef, TableDef, TypedValue, Version};
use sql_value::{ColumnDef, TableKind, Value};

/// Whether the bytes are a name: 1 to 128 of them, from a blank to `~` without the brackets.
pub fn is_proper_name(name: &[u8]) -> bool
    ensures { result ≡ spec.is_proper_name name.now }
{
    !name.is_empty() && name.len() <= 128 && are_name_bytes(name)
}

fn are_name_bytes(bytes: &[u8]) -> bool
    ensures { result ≡ list_all spec.is_name_byte bytes.now }
{
    bytes.iter().all(|b| is_name_byte(*b))
}

fn is_name_byte(b: u8) -> bool
    ensures { result ≡ spec.is_name_byte b }
{
    b >= b' ' && b <= b'~' && b != b'[' && b != b']'
}

/// Whether a table of this kind may have a history of this name: an append-only one has none.
pub(crate) fn has_its_history(kind: TableKind, history: &[u8]) -> bool
    ensures { result ≡ spec.has_its_history kind history.now }
{
    match kind {
        TableKind::AppendOnly => history.is_empty(),
        TableKind::Updatable => is_proper_name(history),
    }
}

/// What the names of the columns that the ledger adds begin with.
const ADDED: &str = "ledger_";

/// Whether the name begins as those of the columns that the ledger adds.
pub fn is_ledger_name(bytes: &[u8]) -> bool
    ensures { result ≡ create.is_ledger_name bytes.now }
{
    let head = &bytes[..bytes.len().min(ADDED.len())];
    head.eq_ignore_ascii_case(ADDED.as_bytes())
}

/// Whether the table has this name at all.
fn is_given(name: &Name) -> bool
    ensures { result ≡ create.is_name name.now }
{
    !name.bytes().is_empty()
}

/// Whether two of the names of a table are one.
pub(crate) fn table_names_repeat(def: &TableDef) -> bool
    ensures { result ≡ repeats (create.table_names def.now) }
{
    let history = is_given(&def.history);
    let view = is_given(&def.view);
    let name_again = is_given(&def.name)
        && (history && def.history == def.name || view && def.view == def.name);
    name_again || history && view && def.view == def.history
}

/// Whether two columns have one name.
pub(crate) fn column_names_repeat(columns: &[ColumnDef]) -> bool
    ensures { result ≡ repeats (create.names_of columns.now) }
{
    for at in 0..columns.len() {
        if has_column(&columns[at + 1..], &columns[at].name) {
            return true;
        }
    }
    false
}

fn has_column(columns: &[ColumnDef], name: &Name) -> bool
    ensures { result ≡ has_name (create.names_of columns.now) name.now }
{
    for column in columns {
        if column.name == *name {
            return true;
        }
    }
    false
}

/// Whether two indexes have one name.
pub(crate) fn index_names_repeat(indexes: &[IndexDef]) -> bool
    ensures { result ≡ repeats (map (λ i. i.name) indexes.now) }
{
    for at in 0..indexes.len() {
        if has_index(&indexes[at + 1..], &indexes[at].name) {
            return true;
        }
    }
    false
}

fn has_index(indexes: &[IndexDef], name: &Name) -> bool
    ensures { result ≡ has_name (map (λ i. i.name) indexes.now) name.now }
{
    for index in indexes {
        if index.name == *name {
            return true;
        }
    }
    false
}

/// Whether no name of the table is one of a table of the system,
/// or stands in one of these rows with a lower id.
pub(crate) fn has_new_names(rows: &[&Version], def: &TableDef) -> bool
    ensures { result ≡ spec.has_new_names (rows_seen rows.now) def.now }
{
    !has_system_name(def) && !has_older_name(rows, def)
}

fn has_system_name(def: &TableDef) -> bool
    ensures { result ≡ spec.share_name (create.all_names (tables_def ∷ columns_def ∷ [])) def.now }
{
    is_given(&def.name) && is_system_name(def.name.bytes())
        || is_given(&def.history) && is_system_name(def.history.bytes())
        || is_given(&def.view) && is_system_name(def.view.bytes())
}

/// Whether a table of the system has this name.
pub fn is_system_name(name: &[u8]) -> bool
    ensures { result ≡ has_name (create.all_names (tables_def ∷ columns_def ∷ [])) name.now }
{
    "sys_ledger_tables".as_bytes() == name || "sys_ledger_columns".as_bytes() == name
}

fn has_older_name(rows: &[&Version], def: &TableDef) -> bool
    ensures { result ≡ list_any
        (λ row. spec.is_before def.now.id row && spec.share_name (spec.names_in row) def.now)
        (rows_seen rows.now) }
{
    for row in rows {
        if is_before(def.id, *row) && shares_name(*row, def) {
            return true;
        }
    }
    false
}

fn is_less(table: Option<i128>, id: u32) -> bool
    ensures { result ≡ before_number id table }
{
    match table {
        Some(table) => table < i128::from(id),
        None => false,
    }
}

fn is_before(id: u32, version: &Version) -> bool
    ensures { result ≡ spec.is_before id (values_of version.now) }
{
    is_less(table_of(version), id)
}

/// Whether a name of the table stands in the row.
fn shares_name(version: &Version, def: &TableDef) -> bool
    ensures { result ≡ spec.share_name (spec.names_in (values_of version.now)) def.now }
{
    is_given(&def.name) && row_has_name(version, def.name.bytes())
        || is_given(&def.history) && row_has_name(version, def.history.bytes())
        || is_given(&def.view) && row_has_name(version, def.view.bytes())
}

/// Whether the name stands in the row of the table of tables.
pub fn row_has_name(version: &Version, name: &[u8]) -> bool
    ensures { result ≡ has_name (spec.names_in (values_of version.now)) name.now }
{
    for value in version.values.as_slice() {
        if is_text(value, name) {
            return true;
        }
    }
    false
}

fn is_text(value: &Option<TypedValue>, name: &[u8]) -> bool
    ensures { result ≡ has_name (filter_map spec.text_of (value_or_null value.now ∷ [])) name.now }
{
    match value {
        Some(
            TypedValue {
                value: Value::Text(text),
                ..
            },
        ) => text.bytes() == name,
        _ => false,
    }
}
