//! Tables get their ids one after another.

ghost use Rattle.std.specs.Prelude.{◌≡◌, ◌||◌, not, pos};
ghost use Rattle.std.specs.List.{filter, list_all, list_any};
ghost use Rattle.spec_rules.specs.Ids as spec;
ghost use Rattle.spec_rules.specs.Places.{PlacedRow, stands_before};
ghost use Rattle.spec_rules.specs.Rows as words;
ghost use Rattle.spec_rules.specs.Rows.{CatalogRows};
ghost use Rattle.audit_rules.specs.Seen.{row_of, seen};

use crate::rows::{PlacedVersion, has_no_change, is_about, is_before};
use base_types::TableId;

/// The first id of a user's table.
const FIRST: TableId = 3;

/// Whether the table before this one was created before it, if this one isn't the first. The rows of the table of
/// tables and those of them that are about this one are given.
#[tactic(auto, unfolding(spec_rules::specs::Ids::ids_follow))]
pub(crate) fn ids_follow(tables: &[PlacedVersion], own: &[PlacedVersion], table: TableId) -> bool
    ensures { (all : CatalogRows) → seen tables.now ≡ all.tables → seen own.now ≡ words.tables_about all (pos table)
        → result ≡ spec.ids_follow all (pos table) }
{
    table == FIRST || is_created_after(tables, own, i128::from(table) - 1)
}

/// Whether this table was created before the one that the rows of the other list are about.
fn is_created_after(tables: &[PlacedVersion], own: &[PlacedVersion], before: i128) -> bool
    ensures { result ≡ list_any (spec.is_created_before (seen own.now))
        (filter (words.is_about_table before) (seen tables.now)) }
{
    for row in tables {
        if is_about(before, row) && is_created_before(own, row) {
            return true;
        }
    }
    false
}

fn is_created_before(own: &[PlacedVersion], row: &PlacedVersion) -> bool
    ensures { result ≡ spec.is_created_before (seen own.now) (row_of row.now) }
{
    has_no_change(0, row) && is_before_all_created(own, row)
}

fn is_before_all_created(own: &[PlacedVersion], row: &PlacedVersion) -> bool
    ensures { result ≡ list_all (λ (r : PlacedRow). not (words.has_no_change 0 r)
        || stands_before row.now.place r.place) (seen own.now) }
{
    for other in own {
        if has_no_change(0, other) && !is_before(row.place, other.place) {
            return false;
        }
    }
    true
}
