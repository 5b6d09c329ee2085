//! The image of books and tables.

ghost use Rattle.std.specs.Prelude.{◌≡◌, IfOk};
ghost use Rattle.audit_replay.specs.Reached.{image_from};

use base_types::{Memory, Name};
use format_image_rows::split;
use sql_types::{Image, Table};
use std::alloc::Global;
use store_blocks::LedgerChain;

/// The image of a database with these books and tables. The versions are moved.
pub(crate) fn image_of(
    alloc: Global,
    database: &Name,
    ledger_chain: LedgerChain,
    tables: Vec<Table>,
) -> Result<Image, Memory>
    ensures { IfOk result (λ image. image ≡ image_from database.now ledger_chain.ledger tables.items) }
{
    let database = database.copy()?;
    let (blocks, entries) = ledger_chain.into_parts();
    let (defs, tables) = split(alloc, tables)?;
    Ok(Image {
        database,
        blocks,
        entries,
        defs,
        tables,
    })
}
