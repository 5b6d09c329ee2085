//! The cell of a table whose versions are there.

ghost use Rattle.std.specs.Prelude.{◌≡◌, IfOk, Some};
ghost use Rattle.spec_model.specs.Runs.{Rising};
ghost use Rattle.spec_continued.specs.Continued.{cell_with};
ghost use Rattle.store_table.specs.Stored.{stored_with};

use crate::building::new_orders;
use crate::cell::TableCell;
use crate::version_store::VersionStore;
use base_types::Memory;
use sql_parts::key_places;
use sql_types::{IndexDef, TableDef, Version};
use std::alloc::Global;
use store_locks::LockList;

impl VersionStore {
    /// These versions, whose key is at these places, with the indexes of these definitions, and without room for
    /// more. Key order, ends and each index cost a sort; no version is copied.
    pub fn of_versions(
        alloc: Global,
        key: Vec<usize>,
        indexes: &[IndexDef],
        versions: Vec<Version>,
    ) -> Result<VersionStore, Memory>
        requires { Rising versions.items }
        ensures { IfOk result (λ s. s ≡ record {
          stored = stored_with key.items indexes.now versions.items;
          room = 0;
        }) }
    {
        let orders = new_orders(alloc, &key, indexes, &versions)?;
        Ok(VersionStore {
            key,
            versions,
            orders,
            room: 0,
            alloc,
        })
    }
}

impl TableCell {
    /// The cell of the table with this definition and these versions, without locks. Key order, ends and each
    /// index cost a sort; no version is copied.
    pub fn going_on(
        alloc: Global,
        def: &TableDef,
        versions: Vec<Version>,
    ) -> Result<TableCell, Memory>
        requires { Rising versions.items }
        ensures { IfOk result (λ c. c ≡ cell_with def.now.id versions.items (Some def.now)) }
    {
        let key = key_places(alloc, def.columns.as_slice())?;
        let store = VersionStore::of_versions(alloc, key, def.indexes.as_slice(), versions)?;
        Ok(TableCell {
            store,
            locks: LockList::new(alloc),
            id: def.id,
        })
    }
}
