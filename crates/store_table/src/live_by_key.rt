//! How a statement finds the versions of a table that stand.

ghost use Rattle.std.specs.Prelude.{◌≡◌, ◌⊎◌, []};
ghost use Rattle.spec_model.specs.Keys.{key_places};

use crate::version_store::VersionStore;
use base_types::Memory;
use sql_parts::{KeyedTable, LiveVersions};
use sql_types::{Key, Row, Version};
use std::alloc::Global;

/// Finds a key by halving, and has all that stand in key order.
impl LiveVersions for VersionStore {
    ghost versions = { λ s. s.stored.versions };

    ghost are_of = { λ s table. (s.stored.versions ≡ []) ⊎ (s.stored.key ≡ key_places table.columns) };

    fn all(&self) -> &[Version] {
        self.versions()
    }

    fn has_key_of(&self, table: &KeyedTable, row: &Row) -> bool {
        self.has_key_of_row(row)
    }

    fn in_key_order(
        &self,
        alloc: Global,
        table: &KeyedTable,
        key: &Option<Key>,
    ) -> Result<Vec<&Version>, Memory> {
        self.live_by_key(alloc, key)
    }
}
