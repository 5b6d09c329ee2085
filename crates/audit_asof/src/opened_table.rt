//! A table that is only read, with the order of its live rows by key.

ghost use Rattle.std.specs.Prelude.{◌≡◌, IfOk};
ghost use Rattle.spec_model.specs.Keys.{live_by_key};
ghost use Rattle.audit_asof.specs.KeyOrder.{ArePlacesOf};

use crate::by_key::{key_order, places_of_key, versions_at};
use base_types::{Items, Memory};
use sql_parts::{KeyedTable, LiveVersions, key_places};
use sql_types::{Key, Row, Table, TableDef, Version};
use std::alloc::Global;
use std::marker::Model;

/// A table with the order of its live rows by key. Contracts see the table.
#[derive(Drop)]
pub(crate) struct OpenedTable {
    table: Table,
    // The places of the key's columns.
    key: Vec<usize>,
    // The places of the live rows among the versions, by key.
    by_key: Vec<usize>,
}

impl Model for OpenedTable {
    ghost use Rattle.std.specs.Prelude.{◌≡◌};
    ghost use Rattle.sql_types.specs.declared.version.Table.{Table};
    ghost use Rattle.spec_model.specs.Keys.{key_places};
    ghost use Rattle.audit_asof.specs.KeyOrder.{key_order};

    ghost Value = { Table };

    ghost view = { λ t. t.table };

    ghost invariant = { λ t. (t.key.items ≡ key_places t.table.def.columns)
        × (t.by_key.items ≡ key_order t.key.items t.table.versions) };
}

impl OpenedTable {
    /// The table, whose rows are moved. Takes the time of sorting the live ones. The only error is want of memory.
    pub(crate) fn new(alloc: Global, table: Table) -> Result<OpenedTable, Memory>
        ensures { IfOk result (λ opened. opened ≡ table) }
    {
        let key = key_places(alloc, table.def.columns.as_slice())?;
        let by_key = key_order(alloc, &key, table.versions.as_slice())?;
        Ok(OpenedTable { table, key, by_key })
    }

    pub(crate) fn def(&self) -> &TableDef
        ensures { result.now ≡ self.now.def }
    {
        &self.table.def
    }

    /// The definition with the places of the key's columns.
    pub(crate) fn keyed(&self) -> KeyedTable
        ensures { result ≡ self.now.def }
    {
        KeyedTable::new(&self.table.def, &self.key)
    }

    fn versions(&self) -> &[Version]
        ensures { result.now ≡ self.now.versions }
    {
        self.table.versions.as_slice()
    }

    /// The places of the live rows in key order: those of one key, or all.
    fn live_places(&self, key: &Option<Key>) -> &[usize]
        ensures { ArePlacesOf self.now.versions result.now
            (live_by_key self.now.def.columns key.now self.now.versions) }
    {
        match key {
            Some(key) => places_of_key(
                &self.key,
                self.table.versions.as_slice(),
                &self.by_key,
                key.as_slice(),
            ),
            None => &self.by_key,
        }
    }
}

/// Finds a key by halving, and has all live rows in key order.
impl LiveVersions for OpenedTable {
    ghost versions = { λ t. t.versions };

    ghost are_of = { λ t table. table ≡ t.def };

    fn all(&self) -> &[Version] {
        self.versions()
    }

    // No SELECT asks this, so it is no search.
    fn has_key_of(&self, table: &KeyedTable, row: &Row) -> bool {
        self.versions().has_key_of(table, row)
    }

    fn in_key_order(
        &self,
        alloc: Global,
        table: &KeyedTable,
        key: &Option<Key>,
    ) -> Result<Vec<&Version>, Memory> {
        versions_at(alloc, self.versions(), self.live_places(key))
    }
}

/// The tables, each with its order. Their rows are moved.
pub(crate) fn open_tables(alloc: Global, tables: Items<Table>) -> Result<Vec<OpenedTable>, Memory>
    ensures { IfOk result (λ opened. opened.items ≡ tables) }
{
    let mut opened = Vec::with_capacity(alloc, tables.len())?;
    for table in tables.into_vec() {
        opened.push(OpenedTable::new(alloc, table)?)?;
    }
    Ok(opened)
}
