//! What a program has in memory has room in an image's bytes: its numbers and lengths fit, and its texts are
//! UTF-8.

ghost use Rattle.std.specs.Prelude.{◌<◌, ◌^◌, IfSome};
ghost use Rattle.std.specs.List.{AllByRecursion};
ghost use Rattle.law_image.specs.Room.{VersionFitsFormat, TableFitsFormat};

use law_events::are_utf8_texts;
use sql_types::{EventId, Table, Version};

/// Does nothing: it is there for its contract.
fn end_has_room(end: Option<EventId>)
    ensures { IfSome end (λ e. e.1 < 2 ^ 64) }
{}

/// Does nothing: it is there for its contract.
fn version_has_room(version: &Version)
    ensures { VersionFitsFormat version.now }
{
    let _number = version.start.seq;
    end_has_room(version.end);
    are_utf8_texts(version.values.as_slice());
}

/// Does nothing: it is there for its contract.
fn versions_have_room(versions: &[Version])
    ensures { AllByRecursion VersionFitsFormat versions.now }
{
    for version in versions {
        version_has_room(version);
    }
}

/// Does nothing: it is there for its contract.
fn table_has_room(table: &Table)
    ensures { TableFitsFormat table.now }
{
    let _count = table.versions.len();
    versions_have_room(table.versions.as_slice());
}

/// Each of the tables has room in an image. Does nothing: it is there for its contract.
pub fn tables_have_room(tables: &[Table])
    ensures { AllByRecursion TableFitsFormat tables.now }
{
    for table in tables {
        table_has_room(table);
    }
}
