//! The parts of an image that are made of tables.

ghost use Rattle.std.specs.Prelude.{◌≡◌, ◌++◌, IfOk, map};
ghost use Rattle.format_image.specs.Image.{user_defs};
ghost use Rattle.format_image.specs.Rows as spec;

use crate::tables::{StoredTable, table_rows};
use base_types::{Items, Memory};
use sql_types::{Table, TableDef, TableRows};
use std::alloc::Global;

/// How many tables the system has.
const SYSTEM_TABLES: usize = 2;

/// The definitions of all tables but the first two, and the rows of all tables. The versions are moved, and
/// the values of the rows of indexes copied.
#[tactic(auto, using(crate::proofs::UserDefs::few_defs, crate::proofs::UserDefs::more_defs))]
pub fn split(
    alloc: Global,
    tables: Vec<Table>,
) -> Result<(Items<TableDef>, Items<TableRows>), Memory>
    ensures defs { IfOk result (λ parts. parts.0 ≡ user_defs tables.items) }
    ensures rows { IfOk result (λ parts. parts.1 ≡ map spec.table_rows tables.items) }
{
    let mut defs = Vec::new(alloc);
    let mut all_rows = Vec::new(alloc);
    for table in tables {
        let StoredTable { def, rows } = table_rows(alloc, table)?;
        if all_rows.len() >= SYSTEM_TABLES {
            defs.push(def)?;
        }
        all_rows.push(rows)?;
    }
    Ok((Items::from_vec(defs), Items::from_vec(all_rows)))
}
