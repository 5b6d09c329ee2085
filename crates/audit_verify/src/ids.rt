//! Whether the ids of entries differ, and each start and end is by a transaction that has an entry.

ghost use Rattle.std.specs.Prelude.{◌≡◌, flat_map, if◌then◌else◌};
ghost use Rattle.law_catalog_rows.specs.Least.{least, least_from, lesser};
ghost use Rattle.spec_verify.specs.Entries as spec;
ghost use Rattle.audit_verify.specs.Entries.{AreFound};
ghost use Rattle.audit_verify.specs.Ids.{repeated_in, strangers_in, strangers_of};
ghost use Rattle.audit_roots.specs.ImageTable.{AreImageTables, table_of};

use crate::entries::Entries;
use crate::least::{TableEvent, event_place, lesser};
use audit_roots::ImageTable;
use base_types::TableId;
use format_image::Image;
use spec_verify::Place;
use sql_types::{EventId, Version};

/// The first entry whose id an earlier one has; where there is none, the least start or end by a
/// transaction that has no entry. Takes an ordered search for each of them.
pub(crate) fn id_fault(image: &Image, entries: &Entries, tables: &[ImageTable]) -> Option<Place>
    requires found { AreFound entries.now }
    requires entries { entries.now.all.now ≡ image.now.entries }
    requires tables { AreImageTables tables.now image.now }
    ensures { result ≡ spec.id_fault image.now }
{
    match repeated(entries) {
        Some(place) => Some(place),
        None => event_place(least_stranger(entries, tables)),
    }
}

fn repeated(entries: &Entries) -> Option<Place>
    requires { AreFound entries.now }
    ensures { result ≡ repeated_in entries.now.all.now }
{
    for (k, entry) in entries.all.iter().enumerate() {
        if entries.has_before(k, entry.id) {
            return Some(Place::Entry(k as u64));
        }
    }
    None
}

fn least_stranger(entries: &Entries, tables: &[ImageTable]) -> Option<TableEvent>
    requires { AreFound entries.now }
    ensures { result ≡ least spec.table_event_cmp
        (flat_map (λ t. strangers_in entries.now.all.now (table_of t)) tables.now) }
{
    let mut best = None;
    for table in tables {
        best = lesser_in(entries, table, best);
    }
    best
}

#[tactic(auto, using(crate::proofs::Strangers::least_of_parts))]
fn lesser_in(entries: &Entries, table: &ImageTable, best: Option<TableEvent>) -> Option<TableEvent>
    requires { AreFound entries.now }
    ensures { result ≡ least_from spec.table_event_cmp best
        (strangers_in entries.now.all.now (table_of table.now)) }
{
    let id = table.def.id;
    let best = lesser_among(entries, id, table.rows.base.as_slice(), best);
    lesser_among(entries, id, table.rows.history.as_slice(), best)
}

fn lesser_among(
    entries: &Entries,
    table: TableId,
    versions: &[Version],
    best: Option<TableEvent>,
) -> Option<TableEvent>
    requires { AreFound entries.now }
    ensures { result ≡ least_from spec.table_event_cmp best
        (flat_map (strangers_of entries.now.all.now table) versions.now) }
{
    let mut best = best;
    for version in versions {
        best = lesser_of(entries, table, version, best);
    }
    best
}

fn lesser_of(
    entries: &Entries,
    table: TableId,
    version: &Version,
    best: Option<TableEvent>,
) -> Option<TableEvent>
    requires { AreFound entries.now }
    ensures { result ≡ least_from spec.table_event_cmp best
        (strangers_of entries.now.all.now table version.now) }
{
    let best = lesser_at(entries, table, version.start, best);
    match version.end {
        Some(end) => lesser_at(entries, table, end, best),
        None => best,
    }
}

fn lesser_at(
    entries: &Entries,
    table: TableId,
    event: EventId,
    best: Option<TableEvent>,
) -> Option<TableEvent>
    requires { AreFound entries.now }
    ensures { result ≡ (if spec.has_id entries.now.all.now event.0 then best
        else lesser spec.table_event_cmp best (table, event)) }
{
    if entries.has(event.tx) {
        best
    } else {
        lesser(best, (table, event))
    }
}
