//! The cells of a database at its beginning.

ghost use Rattle.std.specs.Prelude.{◌≡◌, ◌≤◌, IfOk};
ghost use Rattle.sql_types.specs.declared.journal.TheConstants.{MAX_BLOCK};
ghost use Rattle.server_engine.specs.FirstCells.{first_kept};

use base_types::{Memory, Name};
use server_visits::{CatalogCell, Cell, LedgerCell, TableCell};
use std::alloc::Global;

/// The first id of a user's table, and the one behind the last.
const FIRST_TABLE: u32 = 3;

const BEHIND_TABLES: u32 = 35;

/// The cells of a database without transactions: the catalog, the ledger, and one for each table that there
/// may be.
pub fn first_cells(alloc: Global, database: Name, block_size: u32) -> Result<Vec<Cell>, Memory>
    requires some { 1 ≤ block_size }
    requires most { block_size ≤ MAX_BLOCK }
    ensures { IfOk result (λ cells. cells.items ≡ first_kept database block_size) }
{
    let mut cells = Vec::new(alloc);
    cells.push(Cell::of_catalog(CatalogCell::new(alloc)?))?;
    cells.push(Cell::of_ledger(LedgerCell::new(alloc, database, block_size)))?;
    for id in FIRST_TABLE..BEHIND_TABLES {
        cells.push(Cell::of_rows(TableCell::new(alloc, id)))?;
    }
    Ok(cells)
}
