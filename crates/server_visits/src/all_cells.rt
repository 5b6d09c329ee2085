//! All cells together, as an image shows them.

ghost use Rattle.std.specs.Prelude.{◌≡◌, IfOk, OnOk, map};
ghost use mathlib.Core.Option.{some};
ghost use lib.ListN.{get_elem?};
ghost use Rattle.server_session.specs.Cells.{catalog_at, ledger_at, versions_at, versions_in, AreCells};
ghost use Rattle.server_session.specs.Cells.{Catalog, CatalogCell as SpecCatalog, Ledger, LedgerCell as SpecLedger};
ghost use Rattle.server_visits.specs.Images.{AreImageBytes, CellsStand, JournalFitsFormat};

use crate::cell::{Cell, Kind};
use base_types::{Blob, Memory, TableId, TxId};
use server_session::{CATALOG, LEDGER, cell_of};
use server_visit_catalog::CatalogCell;
use server_visit_ledger::LedgerCell;
use sql_types::{TableDef, Version};
use std::alloc::Global;
use std::marker::Model;
use store_image::{ShownCells, image_bytes_of_cells};

/// The cells, for their image.
#[derive(Drop)]
struct AllCells<'a> {
    catalog: &'a CatalogCell,
    cells: &'a [Cell],
}

impl<'a> Model for AllCells<'a> {
    ghost use Rattle.server_visits.specs.Images.{AllShown};

    ghost Value = { AllShown };

    ghost view = { λ a. record { catalog = a.catalog.now; all = a.cells.now } };
}

impl<'a> ShownCells for AllCells<'a> {
    ghost cells = { λ a. map (λ c. c.cell) a.all };

    ghost catalog = { λ a. a.catalog };

    fn creator(&self) -> Option<TxId> {
        self.catalog.creator()
    }

    fn copy_defs(&self, alloc: Global) -> Result<Vec<TableDef>, Memory> {
        self.catalog.copy_defs(alloc)
    }

    fn copy_defs_before(&self, alloc: Global) -> Result<Vec<TableDef>, Memory> {
        self.catalog.copy_defs_before(alloc)
    }

    fn versions(&self, id: TableId) -> &[Version] {
        versions_of(self.cells, id)
    }
}

fn versions_of(cells: &[Cell], id: TableId) -> &[Version]
    ensures { result.now ≡ versions_at (map (λ c. c.cell) cells.now) id }
{
    match cells.get(cell_of(id)) {
        Some(cell) => cell.versions(id),
        None => &[],
    }
}

impl Cell {
    // The versions of the table with this id that lie in it.
    fn versions(&self, id: TableId) -> &[Version]
        ensures { result.now ≡ versions_in id self.now.cell }
    {
        match &self.kind {
            Kind::Catalog(catalog) => catalog.versions_of(id),
            Kind::Ledger(_) => &[],
            Kind::Rows(rows) => rows.versions(),
        }
    }
}

/// The bytes of the image of what lies in cells; their journal has room in the format then.
pub fn image_bytes_of(alloc: Global, cells: &[Cell]) -> Result<Blob, Memory>
    requires { CellsStand cells.now }
    ensures bytes { IfOk result (λ bytes. AreImageBytes cells.now bytes) }
    ensures room { (stand : CellsStand cells.now) → OnOk result (JournalFitsFormat stand.hash cells.now) }
{
    let catalog = catalog_among(cells);
    image_bytes_of_cells(alloc, ledger_among(cells), &AllCells { catalog, cells })
}

fn catalog_among(cells: &[Cell]) -> &CatalogCell
    requires { (catalog : SpecCatalog) × (ledger : SpecLedger)
        × AreCells (map (λ c. c.cell) cells.now) catalog ledger }
    ensures { get_elem? (map (λ c. c.cell) cells.now) catalog_at ≡ some (Catalog result.now) }
{
    let cell = &cells[CATALOG];
    let Kind::Catalog(catalog) = &cell.kind else {
        unreachable!()
    };
    catalog
}

fn ledger_among(cells: &[Cell]) -> &LedgerCell
    requires { (catalog : SpecCatalog) × (ledger : SpecLedger)
        × AreCells (map (λ c. c.cell) cells.now) catalog ledger }
    ensures { get_elem? (map (λ c. c.cell) cells.now) ledger_at ≡ some (Ledger result.now.cell) }
{
    let cell = &cells[LEDGER];
    let Kind::Ledger(ledger) = &cell.kind else {
        unreachable!()
    };
    ledger
}
