//! What cells show to an image.

ghost use Rattle.std.specs.Prelude.{◌≡◌, List, IfOk, IfSome, option_map};
ghost use Rattle.spec_protocol.specs.Cells.{CatalogCell, Cell, versions_at};

use base_types::{Memory, TableId, TxId};
use sql_types::{TableDef, Version};
use std::alloc::Global;

/// Cells as an image shows them, but for the ledger's.
pub trait ShownCells {
    /// All cells.
    ghost cells: { Self → List Cell };

    /// The catalog's cell among them.
    ghost catalog: { Self → CatalogCell };

    /// The transaction that changed the definitions and hasn't released the catalog.
    fn creator(&self) -> Option<TxId>
        ensures { result ≡ option_map (λ c. c.tx) (catalog self.now).creator };

    /// Copies of the definitions.
    fn copy_defs(&self, alloc: Global) -> Result<Vec<TableDef>, Memory>
        ensures { IfOk result (λ copies. copies.items ≡ (catalog self.now).defs) };

    /// Copies of the definitions as they were before the creator changed them, where there is one.
    fn copy_defs_before(&self, alloc: Global) -> Result<Vec<TableDef>, Memory>
        ensures { IfOk result (λ copies. IfSome (catalog self.now).creator (λ c. copies.items ≡ c.before)) };

    /// The versions of the table with this id: none where no cell is its.
    fn versions(&self, id: TableId) -> &[Version]
        ensures { result.now ≡ versions_at (cells self.now) id };
}
