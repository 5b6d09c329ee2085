//! The catalog's cell whose definitions and rows are there.

ghost use Rattle.std.specs.Prelude.{◌≡◌, ◌++◌, ◌∷◌, [], IfOk, OnOk};
ghost use Rattle.spec_model.specs.Runs.{Rising};
ghost use Rattle.store_table.specs.Continued.{catalog_with};
ghost use Rattle.store_catalog.specs.Definitions.{AreFormed};
ghost use Rattle.store_catalog.specs.GoingOn.{HaveNewNames};
ghost use Rattle.store_catalog.specs.Names.{HasNewNames};

use crate::cell::CatalogCell;
use crate::named_defs::NamedDefs;
use base_shared::Shared;
use base_types::Memory;
use sql_types::{TableDef, Version};
use std::alloc::Global;
use store_locks::LockList;
use store_table::VersionStore;

// Adds a definition behind the others.
fn add_def(alloc: Global, named: &mut NamedDefs, def: TableDef) -> Result<(), Memory>
    requires { HasNewNames named.old def }
    ensures { OnOk result (named.new ≡ named.old ++ def ∷ []) }
{
    named.push(alloc, Shared::new(alloc, def)?)
}

// The definitions, with where each of their names leads.
fn named_defs_of(alloc: Global, defs: Vec<TableDef>) -> Result<NamedDefs, Memory>
    requires { HaveNewNames [] defs.items }
    ensures { IfOk result (λ named. named ≡ defs.items) }
{
    let mut named = NamedDefs::new(alloc);
    for def in defs {
        add_def(alloc, &mut named, def)?;
    }
    Ok(named)
}

// The rows of a table of the system, of which no key is kept and no index.
fn system_rows(alloc: Global, versions: Vec<Version>) -> Result<VersionStore, Memory>
    requires { Rising versions.items }
    ensures { IfOk result (λ rows. rows.stored.versions ≡ versions.items) }
{
    VersionStore::of_versions(alloc, Vec::new(alloc), &[], versions)
}

impl CatalogCell {
    /// The cell of these definitions, which nobody changes, and of these rows of the two tables of the system,
    /// without locks. Names are copied, and neither definitions nor versions.
    pub fn going_on(
        alloc: Global,
        defs: Vec<TableDef>,
        tables: Vec<Version>,
        columns: Vec<Version>,
    ) -> Result<CatalogCell, Memory>
        requires formed { AreFormed defs.items }
        requires names { HaveNewNames [] defs.items }
        requires tables { Rising tables.items }
        requires columns { Rising columns.items }
        ensures { IfOk result (λ c. c ≡ catalog_with defs.items tables.items columns.items) }
    {
        Ok(CatalogCell {
            defs: named_defs_of(alloc, defs)?,
            creator: None,
            tables: system_rows(alloc, tables)?,
            columns: system_rows(alloc, columns)?,
            locks: LockList::new(alloc),
        })
    }
}
