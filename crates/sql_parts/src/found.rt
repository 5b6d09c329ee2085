//! Who has the versions of a table, and finds those that stand.

ghost use Rattle.std.specs.Prelude.{◌≡◌, List, IfOk, map};
ghost use Rattle.sql_types.specs.declared.table.TableDef.{TableDef as AnyTable};
ghost use Rattle.sql_types.specs.declared.version.Version.{Version as AnyVersion};
ghost use Rattle.spec_model.specs.Keys as spec;

use crate::keyed::KeyedTable;
use crate::keys::same_key;
use crate::live::live_by_key;
use base_types::Memory;
use sql_types::{Key, Row, Version};
use std::alloc::Global;

/// The versions of a table, with a way to find those that stand: a list in no order of keys is gone through,
/// and who keeps the order of the keys finds a key by halving.
pub trait LiveVersions {
    /// The versions, by their starts.
    ghost versions: { Self → List AnyVersion };

    /// They are versions of this table: where an order of keys is kept, it is that of its keys.
    ghost are_of: { Self → AnyTable → Type 0 };

    /// The versions.
    fn all(&self) -> &[Version]
        ensures { result.now ≡ versions self.now };

    /// Whether a version of the row's key stands.
    fn has_key_of(&self, table: &KeyedTable, row: &Row) -> bool
        requires { are_of self.now table.now }
        ensures { result ≡ spec.has_live_row table.now.columns (spec.key_of table.now.columns row.now)
            (versions self.now) };

    /// The versions without an end, in key order: those of one key, or all.
    fn in_key_order(
        &self,
        alloc: Global,
        table: &KeyedTable,
        key: &Option<Key>,
    ) -> Result<Vec<&Version>, Memory>
        requires { are_of self.now table.now }
        ensures { IfOk result (λ found. map (λ v. v.now) found.items
            ≡ spec.live_by_key table.now.columns key.now (versions self.now)) };
}

/// Looks at each version once; sorts those that it finds.
impl<'a> LiveVersions for &'a [Version] {
    ghost versions = { λ r. r.now };

    ghost are_of = { λ r table. Unit {0} };

    fn all(&self) -> &[Version] {
        *self
    }

    fn has_key_of(&self, table: &KeyedTable, row: &Row) -> bool {
        has_live_row(table, *self, row)
    }

    fn in_key_order(
        &self,
        alloc: Global,
        table: &KeyedTable,
        key: &Option<Key>,
    ) -> Result<Vec<&Version>, Memory> {
        live_by_key(alloc, table, key, *self)
    }
}

/// Whether a version of the row's key stands.
#[tactic(auto, unfolding(spec_model::specs::Keys::has_live_row_at))]
fn has_live_row(table: &KeyedTable, versions: &[Version], row: &Row) -> bool
    ensures { result ≡ spec.has_live_row table.now.columns (spec.key_of table.now.columns row.now) versions.now }
{
    versions
        .iter()
        .filter(|version| same_key(table, *version, row))
        .any(|version| version.end.is_none())
}
