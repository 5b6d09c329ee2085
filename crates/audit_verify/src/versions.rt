//! Whether each version fits its table, and those of one key follow one another.

ghost use Rattle.std.specs.Prelude.{◌≡◌, flat_map, IfOk, None};
ghost use Rattle.std.specs.List.{All, AllByRecursion};
ghost use Rattle.spec_model.specs.Checks.{is_append_only};
ghost use Rattle.law_catalog_rows.specs.Least.{least, least_from};
ghost use Rattle.spec_verify.specs.Entries.{id_fault, table_event_cmp};
ghost use Rattle.spec_rules.specs.Rows.{CatalogRows};
ghost use Rattle.spec_verify.specs.Rules as rules;
ghost use Rattle.audit_rules.specs.Times.{AreTimes};
ghost use Rattle.audit_verify.specs.Order.{AreStarted, IsRanked};
ghost use Rattle.audit_roots.specs.ImageTable.{AreImageTables, table_of};
ghost use Rattle.audit_verify.specs.Versions.{faulty_versions, fits_alone, null_among, unfit_among};

use crate::least::{TableEvent, event_place, lesser};
use crate::order::{VersionWithRanks, least_wrong, ranked_versions, sort_in_runs};
use audit_columns::{ColumnRows, has_columns};
use audit_definitions::base_at;
use audit_roots::ImageTable;
use audit_rules::{TableTimes, Times};
use base_types::Memory;
use format_image::Image;
use spec_verify::Place;
use sql_parts::{KeyedTable, key_places};
use sql_types::{TableDef, Version};
use sql_value::TableKind;
use std::alloc::Global;

/// The start of the least version that its table may not have or that breaks a rule of changes, where each start has
/// its entry. Sorts the ids of the entries, the rows of the table of columns by column and start, what the rows of the
/// system tables say, and the versions of each table by key and start, and goes through them once, with two ordered
/// searches for each value of theirs.
pub(crate) fn row_fault(
    alloc: Global,
    image: &Image,
    tables: &[ImageTable],
) -> Result<Option<Place>, Memory>
    requires tables { AreImageTables tables.now image.now }
    requires ids { id_fault image.now ≡ None }
    ensures { IfOk result (λ place. place ≡ rules.row_fault image.now) }
{
    let columns = ColumnRows::of(alloc, image)?;
    let times = times_of(alloc, &columns, image)?;
    let worst = least_invalid_version(alloc, &columns, &times, tables)?;
    Ok(event_place(worst))
}

/// When tables were created and dropped, and columns dropped, by the rows of the image.
pub(crate) fn times_of(alloc: Global, columns: &ColumnRows, image: &Image) -> Result<Times, Memory>
    requires { columns.now.0 ≡ image.now.entries }
    ensures { IfOk result (λ times. AreTimes (rules.rows_of_image image.now) times) }
{
    Times::of(
        alloc,
        columns.positions(),
        base_at(image, 0),
        base_at(image, 1),
    )
}

/// The start of the least version that its table may not have or that breaks a rule of changes, if there is one.
pub(crate) fn least_invalid_version(
    alloc: Global,
    columns: &ColumnRows,
    times: &Times,
    tables: &[ImageTable],
) -> Result<Option<TableEvent>, Memory>
    requires { All (AreStarted columns.now.0) tables.now }
    ensures { IfOk result (λ worst. (rows : CatalogRows) → AreTimes rows times.now → worst
        ≡ least table_event_cmp
        (flat_map (λ t. faulty_versions columns.now.0 columns.now.1 rows (table_of t)) tables.now)) }
{
    let mut worst = None;
    for table in tables {
        worst = worst_in(alloc, columns, times, table, worst)?;
    }
    Ok(worst)
}

fn worst_in(
    alloc: Global,
    columns: &ColumnRows,
    times: &Times,
    table: &ImageTable,
    worst: Option<TableEvent>,
) -> Result<Option<TableEvent>, Memory>
    requires { AreStarted columns.now.0 table.now }
    ensures { IfOk result (λ least. (rows : CatalogRows) → AreTimes rows times.now → least
        ≡ least_from table_event_cmp worst
        (faulty_versions columns.now.0 columns.now.1 rows (table_of table.now))) }
{
    let rows = table.rows;
    let worst = worst_alone(table.def, rows.base.as_slice(), worst);
    let worst = worst_alone(table.def, rows.history.as_slice(), worst);
    let key = key_places(alloc, table.def.columns.as_slice())?;
    let keyed = KeyedTable::new(table.def, &key);
    let mut ranked = ranked_versions(alloc, columns.positions(), &keyed, rows)?;
    let worst = worst_null(columns, table.def, &ranked, worst);
    sort_in_runs(&keyed, &mut ranked)?;
    let table_times = TableTimes::of(times, table.def.id);
    Ok(least_wrong(&keyed, &table_times, &ranked, worst))
}

/// The least start so far, and of those of these versions that don't fit the table by themselves.
fn worst_alone(
    def: &TableDef,
    versions: &[Version],
    worst: Option<TableEvent>,
) -> Option<TableEvent>
    ensures { result ≡ least_from table_event_cmp worst (unfit_among def.now versions.now) }
{
    let mut worst = worst;
    for version in versions {
        if !fits_alone(def, version) {
            worst = lesser(worst, (def.id, version.start));
        }
    }
    worst
}

/// The least start so far, and of those of these versions in which NULL stands where it may not.
fn worst_null(
    columns: &ColumnRows,
    def: &TableDef,
    ranked: &[VersionWithRanks],
    worst: Option<TableEvent>,
) -> Option<TableEvent>
    requires { AllByRecursion (IsRanked columns.now.0) ranked.now }
    ensures { result ≡ least_from table_event_cmp worst
        (null_among columns.now.0 columns.now.1 def.now ranked.now) }
{
    let mut worst = worst;
    for row in ranked {
        if !columns.respects_columns(def, row.version, row.start) {
            worst = lesser(worst, (def.id, row.version.start));
        }
    }
    worst
}

fn fits_alone(def: &TableDef, version: &Version) -> bool
    ensures { result ≡ fits_alone def.now version.now }
{
    let columns = def.columns.as_slice();
    let values = version.values.as_slice();
    has_columns(columns, values) && !(is_append_only(def.kind) && version.end.is_some())
}

fn is_append_only(kind: TableKind) -> bool
    ensures { result ≡ is_append_only kind }
{
    match kind {
        TableKind::AppendOnly => true,
        TableKind::Updatable => false,
    }
}
