//! Reading the bytes of an image.

ghost use Rattle.std.specs.Prelude.{◌≡◌, Some, IfOk, IfSome};
ghost use Rattle.base_fields.specs.Reading.{ReadsAs};
ghost use Rattle.sql_types.specs.declared.image.Image.{Image};
ghost use Rattle.format_image.specs.ImageBytes.{IsImage, IsSpellingOf};
ghost use Rattle.format_image.specs.ImageReading.{image_in, image_at};

use crate::read_definitions::defs_at;
use crate::read_ledger::ledger_at;
use crate::read_rows::tables_at;
use crate::version::{ImageVersion, version_at};
use base_fields::{ReadError, database_at, literal, whole};
use base_types::Memory;
use sql_types::Image;
use std::alloc::Global;

/// The image whose bytes these are, all of them, in version 2 or in version 1, or None exactly where they are
/// those of no image (`docs/FORMATS.md`). The only error is want of memory. Takes time in proportion to the
/// bytes.
pub fn read_image(alloc: Global, bytes: &[u8]) -> Result<Option<Image>, Memory>
    ensures found { IfOk result (λ read. IfSome read (λ i. IsImage i × IsSpellingOf bytes.now i)) }
    ensures only { (i : Image) → IsImage i → IsSpellingOf bytes.now i → IfOk result (λ read. read ≡ Some i) }
{
    let found = whole(image_at(alloc, bytes))?;
    Ok(found)
}

#[tactic(auto, unfolding(crate::specs::ImageReading::either_at, crate::specs::ImageReading::image_at))]
fn image_at(alloc: Global, bytes: &[u8]) -> Result<(Image, &[u8]), ReadError>
    ensures { ReadsAs (λ x. (x.0, x.1.now)) result (image_at bytes.now) }
{
    let rest = literal(b"LGIM", bytes)?;
    let (version, rest) = version_at(rest)?;
    let (image, rest) = image_in(alloc, version, rest)?;
    Ok((image, rest))
}

// An image of this version, behind the number of the version.
#[tactic(auto, unfolding(crate::specs::ImageReading::image_in))]
fn image_in(alloc: Global, version: ImageVersion, bytes: &[u8]) -> Result<(Image, &[u8]), ReadError>
    ensures { ReadsAs (λ x. (x.0, x.1.now)) result (image_in version bytes.now) }
{
    let (database, rest) = database_at(alloc, bytes)?;
    let ((blocks, entries), rest) = ledger_at(alloc, rest)?;
    let (defs, rest) = defs_at(alloc, version, rest)?;
    let (tables, rest) = tables_at(alloc, defs.as_slice(), rest)?;
    let read = Image {
        database,
        blocks,
        entries,
        defs,
        tables,
    };
    Ok((read, rest))
}
