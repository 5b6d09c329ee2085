//! Cases of images, in hexadecimal digits.

ghost use Rattle.std.specs.Prelude.{IfSome};
ghost use Rattle.format_image.specs.ImageBytes.{IsImage};

use crate::fault::Fault;
use crate::page::Page;
use format_image::{read_image, write_image};
use sql_types::{BlockRecord, Image, TableDef, TableRows, TxEntry};
use std::alloc::Global;

/// Puts the number and the size of each block.
fn put_blocks(blocks: &[BlockRecord], page: &mut Page) {
    for block in blocks {
        page.put("; block ");
        page.put_number(block.id);
        page.put(" of ");
        page.put_number(block.size);
    }
}

/// Puts the transaction of each entry, and its place.
fn put_entries(entries: &[TxEntry], page: &mut Page) {
    for e in entries {
        page.put("; ");
        page.put_number(e.id);
        page.put(" at ");
        page.put_number(e.block);
        page.put(".");
        page.put_number(e.ordinal);
    }
}

/// Puts that the table was dropped, where it was, and the ordinals of the columns that were.
fn put_dropped(def: &TableDef, page: &mut Page) {
    if def.gone {
        page.put(" gone");
    }
    for ordinal in def.dropped.as_slice() {
        page.put(" without ");
        page.put_number(u64::from(*ordinal));
    }
}

/// Puts the id and the name of each table.
fn put_defs(defs: &[TableDef], page: &mut Page) {
    for def in defs {
        page.put("; table ");
        page.put_shown(&def.id);
        page.put(" ");
        page.put(def.name.as_str());
        put_dropped(def, page);
    }
}

/// Puts how many rows the base of a table has, its history, and each of its indexes.
fn put_rows(rows: &TableRows, page: &mut Page) {
    page.put("; rows ");
    page.put_number(rows.base.len() as u64);
    page.put(" ");
    page.put_number(rows.history.len() as u64);
    for index in rows.indexes.as_slice() {
        page.put(" ");
        page.put_number(index.len() as u64);
    }
}

fn put_tables(tables: &[TableRows], page: &mut Page) {
    for rows in tables {
        put_rows(rows, page);
    }
}

fn put_image(i: &Image, page: &mut Page) {
    page.put(i.database.as_str());
    put_blocks(i.blocks.as_slice(), page);
    put_entries(i.entries.as_slice(), page);
    put_defs(i.defs.as_slice(), page);
    put_tables(i.tables.as_slice(), page);
}

/// Whether an image that was read is written as it was; one of version 1 isn't, since it is written in version 2.
fn is_written_as(alloc: Global, i: &Image, bytes: &[u8]) -> Result<bool, Fault>
    requires { IsImage i.now }
{
    let again = write_image(alloc, i)?;
    let is_first = bytes.len() > 4 && bytes[4] == 1;
    Ok(is_first || again.as_slice() == bytes)
}

fn image_found(
    alloc: Global,
    found: &Option<Image>,
    bytes: &[u8],
    page: &mut Page,
) -> Result<bool, Fault>
    requires { IfSome found.now (λ i. IsImage i) }
{
    let Some(i) = found else {
        return Ok(false);
    };
    if !is_written_as(alloc, i, bytes)? {
        return Err(Fault::Form("the image isn't written as it is read"));
    }
    put_image(i, page);
    Ok(true)
}

/// Whether bytes are an image, of which it puts the database, blocks, entries and tables.
pub fn image(alloc: Global, bytes: &[u8], page: &mut Page) -> Result<bool, Fault> {
    let found = read_image(alloc, bytes)?;
    let is_one = image_found(alloc, &found, bytes, page);
    // `drop` lets each type go by a function of its own, which is proved once
    drop(found);
    is_one
}
