//! The cells that seats visit.

ghost use Rattle.std.specs.Prelude.{◌≡◌};
ghost use Rattle.server_session.specs.KeptCell.{catalog_seen, rows_seen};
ghost use Rattle.server_visit_ledger.specs.LedgerSeen.{ledger_seen};

use server_visit_catalog::CatalogCell;
use server_visit_ledger::LedgerCell;
use server_visit_table::TableCell;
use std::marker::Model;

#[derive(Drop)]
pub(crate) enum Kind {
    Catalog(CatalogCell),
    Ledger(LedgerCell),
    Rows(TableCell),
}

/// What a seat visits: the catalog, the ledger, or a table. Contracts see the cell of which the laws on
/// visits speak, and the hash that the ledger keeps of its last block.
#[derive(Drop)]
pub struct Cell {
    pub(crate) kind: Kind,
}

impl Model for Cell {
    ghost use Rattle.server_session.specs.KeptCell.{KeptCell};
    ghost use Rattle.server_visits.specs.CellSeen.{cell_seen};

    ghost Value = { KeptCell };

    ghost view = { λ c. cell_seen c.kind };
}

impl Cell {
    /// The catalog's cell among cells.
    pub fn of_catalog(catalog: CatalogCell) -> Cell
        ensures { result ≡ catalog_seen catalog }
    {
        Cell {
            kind: Kind::Catalog(catalog),
        }
    }

    /// A table's cell among cells.
    pub fn of_rows(rows: TableCell) -> Cell
        ensures { result ≡ rows_seen rows }
    {
        Cell {
            kind: Kind::Rows(rows),
        }
    }

    /// The ledger's cell among cells.
    pub fn of_ledger(ledger: LedgerCell) -> Cell
        ensures { result ≡ ledger_seen ledger }
    {
        Cell {
            kind: Kind::Ledger(ledger),
        }
    }
}
