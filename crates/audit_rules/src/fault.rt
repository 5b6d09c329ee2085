//! The least table that is defined otherwise than its rows spell it, or whose rows break a rule of changes.

ghost use Rattle.std.specs.Prelude.{◌≡◌, ◌++◌, IfOk, filter_map, not};
ghost use Rattle.std.specs.List.{AllByRecursion, filter};
ghost use Rattle.std.specs.Ordering.{int_cmp};
ghost use Rattle.law_catalog_rows.specs.Differs.{encoding_fault, table_of};
ghost use Rattle.law_catalog_rows.specs.Least.{least, lesser_of};
ghost use Rattle.spec_rules.specs.Rules.{keeps_the_rules};
ghost use Rattle.spec_verify.specs.Rules as verdict;
ghost use Rattle.audit_definitions.specs.DefinitionRows.{HasSmallId, base_in, rows_in};
ghost use Rattle.audit_rules.specs.Faults as spec;

use crate::catalog::Catalog;
use audit_columns::Positions;
use audit_definitions::{base_at, ids_encoded, table_place, worst_def, worst_row};
use base_types::{Memory, TableId};
use spec_verify::{Image, Place};
use sql_types::{TableDef, Version};
use std::alloc::Global;

/// The base rows of the two system tables.
#[derive(Clone, Copy)]
struct SystemRows<'a> {
    first: &'a [Version],
    second: &'a [Version],
}

/// The least table that is defined otherwise than its rows spell it, or whose rows break a rule. Sorts the ids of the
/// entries and the rows of the system tables, and goes through the rows for each definition that they spell, of which
/// there are 32 at most. The only error is want of memory.
pub fn catalog_fault(alloc: Global, image: &Image) -> Result<Option<Place>, Memory>
    requires first { AllByRecursion HasSmallId (base_in image.now.tables 0) }
    requires second { AllByRecursion HasSmallId (base_in image.now.tables 1) }
    ensures { IfOk result (λ place. place ≡ verdict.catalog_fault image.now) }
{
    let rows = SystemRows {
        first: base_at(image, 0),
        second: base_at(image, 1),
    };
    let entries = image.entries.as_slice();
    let positions = Positions::of(alloc, entries)?;
    let catalog = Catalog::of(alloc, &positions, entries, rows.first, rows.second)?;
    let worst = worst_of(alloc, &catalog, &rows, image.defs.as_slice())?;
    Ok(table_place(worst))
}

fn worst_of(
    alloc: Global,
    catalog: &Catalog,
    rows: &SystemRows,
    defs: &[TableDef],
) -> Result<Option<i64>, Memory>
    requires first { AllByRecursion HasSmallId rows.now.first.now }
    requires second { AllByRecursion HasSmallId rows.now.second.now }
    ensures { IfOk result (λ worst. worst ≡ lesser_of int_cmp
        (encoding_fault (rows_in rows.now.first.now) (rows_in rows.now.second.now) defs.now)
        (least int_cmp (filter (λ t. not (keeps_the_rules catalog.now.0 catalog.now.1 t))
        (filter_map table_of (rows_in rows.now.first.now) ++ filter_map table_of (rows_in rows.now.second.now))))) }
{
    let spelled = ids_encoded(alloc, rows.first, rows.second, defs)?;
    let right = ids_right(alloc, catalog, &spelled)?;
    let worst = worst_row(&right, rows.first, None);
    let worst = worst_row(&right, rows.second, worst);
    Ok(worst_def(&spelled, defs, worst))
}

/// Those of these ids about which the rows keep the rules.
fn ids_right(alloc: Global, catalog: &Catalog, ids: &[TableId]) -> Result<Vec<TableId>, Memory>
    ensures { IfOk result (λ right. right.items ≡ spec.ids_right catalog.now.0 catalog.now.1 ids.now) }
{
    let mut right = Vec::new(alloc);
    for id in ids {
        if catalog.keeps_the_rules(alloc, *id)? {
            right.push(*id)?;
        }
    }
    Ok(right)
}
