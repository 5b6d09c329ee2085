//! The tables that an image shows.

ghost use Rattle.std.specs.Prelude.{◌≡◌, IfOk, map, length};
ghost use Rattle.format_image.specs.Tables.{defs_in};
ghost use Rattle.format_image.specs.ImageBytes.{IsImage};
ghost use Rattle.spec_model.specs.SystemTables.{first_tables};
ghost use Rattle.audit_roots.specs.ImageTable.{AreImageTables, def_of};

use base_types::Memory;
use format_image::{Image, TableRows};
use sql_types::{Table, TableDef};
use std::alloc::Global;

/// A table of an image.
#[derive(Clone, Copy, Debug)]
pub struct ImageTable<'a> {
    pub def: &'a TableDef,
    pub rows: &'a TableRows,
}

/// The tables of the image: the two of the system, which come first, and those that it defines. Copies none of their
/// rows. The only error is want of memory.
pub fn shown_tables<'a>(
    alloc: Global,
    system: &'a [Table],
    image: &'a Image,
) -> Result<Vec<ImageTable<'a>>, Memory>
    requires system { system.now ≡ first_tables }
    requires image { IsImage image.now }
    ensures { IfOk result (λ tables. AreImageTables tables.items image.now) }
{
    let defs = defs_in(alloc, system, image)?;
    let mut tables = Vec::with_capacity(alloc, defs.len())?;
    for (def, rows) in defs.iter().zip(image.tables.as_slice()) {
        tables.push(ImageTable { def: *def, rows })?;
    }
    Ok(tables)
}

#[tactic(auto, unfolding(spec_model::specs::SystemTables::first_tables))]
fn defs_in<'a>(
    alloc: Global,
    system: &'a [Table],
    image: &'a Image,
) -> Result<Vec<&'a TableDef>, Memory>
    requires { system.now ≡ first_tables }
    ensures { IfOk result (λ defs. map (λ d. d.now) defs.items ≡ defs_in image.now) }
{
    let mut defs = Vec::new(alloc);
    for table in system {
        defs.push(&table.def)?;
    }
    for def in image.defs.as_slice() {
        defs.push(def)?;
    }
    Ok(defs)
}
