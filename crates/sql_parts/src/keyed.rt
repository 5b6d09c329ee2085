//! A table's definition with the places of its key's columns.

ghost use Rattle.std.specs.Prelude.{◌≡◌};
ghost use Rattle.spec_model.specs.Keys.{key_places};

use sql_types::TableDef;
use sql_value::ColumnDef;
use std::marker::Model;

/// The definition of a table, as contracts see it, with the places of the columns of its key, which are
/// worked out once.
#[derive(Debug, Drop)]
pub struct KeyedTable<'a> {
    def: &'a TableDef,
    key: &'a [usize],
}

impl<'a> Model for KeyedTable<'a> {
    ghost use Rattle.std.specs.Prelude.{◌≡◌};
    ghost use Rattle.sql_types.specs.declared.table.TableDef.{TableDef};
    ghost use Rattle.spec_model.specs.Keys.{key_places};

    ghost Value = { TableDef };

    ghost view = { λ t. t.def.now };

    ghost invariant = { λ t. t.key.now ≡ key_places t.def.now.columns };
}

impl<'a> KeyedTable<'a> {
    /// A table with the places that `key_places` gives of its columns.
    pub fn new(def: &'a TableDef, key: &'a [usize]) -> KeyedTable<'a>
        requires { key.now ≡ key_places def.now.columns }
        ensures { result ≡ def.now }
    {
        KeyedTable { def, key }
    }

    pub fn def(&self) -> &'a TableDef
        ensures { result.now ≡ self.now }
    {
        self.def
    }

    /// The declared columns.
    pub fn columns(&self) -> &'a [ColumnDef]
        ensures { result.now ≡ self.now.columns }
    {
        self.def.columns.as_slice()
    }

    /// The places of the columns of the key, by key position.
    pub fn key(&self) -> &'a [usize]
        ensures { result.now ≡ key_places self.now.columns }
    {
        self.key
    }
}
