//! The image of what lies in cells.

ghost use Rattle.std.specs.Prelude.{◌≡◌, ℕ, List, IfOk, OnOk};
ghost use Rattle.format_image.specs.ImageBytes.{image_bytes};
ghost use Rattle.format_image_rows.specs.Room.{FitsImageFormat};
ghost use Rattle.spec_syntax.specs.Text.{statement_of};
ghost use Rattle.law_server.specs.CellsImage.{cells_image};
ghost use Rattle.store_image.specs.Leads.{image_with, LeadsThere};

use crate::entries::copy_entries;
use crate::forms::has_forms;
use crate::shown::ShownCells;
use crate::tables::tables_in_cells;
use base_types::{Blob, Items, Memory};
use format_image::write_image;
use format_image_rows::{legal_images_are_encodable, split};
use law_catalog_text::readings_of_the_grammar_give_written;
use sql_types::{Image, Table};
use std::alloc::Global;
use store_ledger::LedgerCell;

/// The image with these tables.
fn image_with(alloc: Global, ledger: &LedgerCell, tables: Vec<Table>) -> Result<Image, Memory>
    ensures { IfOk result (λ image. image ≡ image_with ledger.now.cell tables.items) }
{
    let (defs, tables) = split(alloc, tables)?;
    Ok(Image {
        database: ledger.database().copy()?,
        blocks: Items::from_vec(Vec::from_slice(alloc, ledger.blocks())?),
        entries: copy_entries(alloc, ledger.entries())?,
        defs,
        tables,
    })
}

/// The bytes of the image of what lies in cells, without what isn't committed: the database, blocks and entries
/// of the ledger's cell, and the definitions and rows of the tables. Copies all of it, and makes the rows of
/// indexes anew by sorting. The journal that leads there has room in the format then. It also answers want of
/// memory where the database's name or an item breaks a side rule of journals: then the image has no spelling.
#[tactic(auto, unfolding(law_server::specs::CellsImage::cells_image))]
pub fn image_bytes_of_cells<C: ShownCells>(
    alloc: Global,
    ledger: &LedgerCell,
    cells: &C,
) -> Result<Blob, Memory>
    requires { (h : List ℕ → List ℕ)
        × LeadsThere h (C.cells cells.now) (C.catalog cells.now) ledger.now.cell }
    ensures bytes { IfOk result (λ bytes. bytes
        ≡ image_bytes (cells_image (C.cells cells.now) (C.catalog cells.now) ledger.now.cell)) }
    ensures room { (h : List ℕ → List ℕ)
        → LeadsThere h (C.cells cells.now) (C.catalog cells.now) ledger.now.cell
        → OnOk result (FitsImageFormat h statement_of ledger.now.cell.database ledger.now.cell.items) }
{
    if !has_forms(ledger) {
        return Err(Memory);
    }
    legal_images_are_encodable();
    readings_of_the_grammar_give_written();
    let tables = tables_in_cells(alloc, ledger, cells)?;
    let image = image_with(alloc, ledger, tables)?;
    let _blocks = ledger.blocks().len();
    let _entries = ledger.entries().len();
    Ok(Blob::from_vec(write_image(alloc, &image)?))
}
