//! The rows of the system tables of an image, and whether those about a table keep the rules of changes.

ghost use Rattle.std.specs.Prelude.{◌≡◌, pos, IfOk, OnOk};
ghost use Rattle.spec_model.specs.Lists.{sorted};
ghost use Rattle.spec_rules.specs.Rows as words;
ghost use Rattle.spec_rules.specs.OneStatement as statements;
ghost use Rattle.spec_rules.specs.Rules as spec;
ghost use Rattle.spec_rules.specs.TableNames as names;
ghost use Rattle.audit_rules.specs.Catalog.{items_keep_the_rules};
ghost use Rattle.audit_rules.specs.Seen.{position_cmp, seen, table_cmp};

use crate::changes::changes_are_in_order;
use crate::columns::columns_are_right;
use crate::ids::ids_follow;
use crate::in_force::column_names_are_new;
use crate::indexes::{BesideIndexes, indexes_are_in_time};
use crate::rows::{
    PlacedVersion, column_rows, firsts, index_rows, number, placed_rows, rows_about, seconds,
};
use crate::statements::{ByPosition, one_statement};
use crate::table_names::table_names_are_new;
use crate::tables::tables_are_right;
use audit_columns::Positions;
use base_types::{Memory, TableId};
use sql_types::{TxEntry, Version};
use std::alloc::Global;
use std::cmp::Ordering;
use std::marker::Model;

/// The base rows of the two system tables with their places: in the order of the image, by the table that they are
/// about, and by the positions of their entries. Contracts see the entries and the rows.
#[derive(Debug, Drop)]
pub struct Catalog<'a> {
    entries: &'a [TxEntry],
    tables: Vec<PlacedVersion<'a>>,
    items: Vec<PlacedVersion<'a>>,
    by_table: Vec<PlacedVersion<'a>>,
    tables_by_position: Vec<PlacedVersion<'a>>,
    items_by_position: Vec<PlacedVersion<'a>>,
}

impl<'a> Model for Catalog<'a> {
    ghost use Rattle.std.specs.Prelude.{List};
    ghost use Rattle.sql_types.specs.declared.entry.TxEntry.{TxEntry};
    ghost use Rattle.spec_rules.specs.Rows.{CatalogRows};
    ghost use Rattle.audit_rules.specs.Catalog.{IsSortedCatalog};
    ghost use Rattle.audit_rules.specs.Seen.{seen};

    ghost Value = { List TxEntry × CatalogRows };

    ghost view = { λ c. (c.entries.now, record { tables = seen c.tables.items; items = seen c.items.items }) };

    ghost invariant = { λ c. IsSortedCatalog c.tables.items c.items.items c.by_table.items
        c.tables_by_position.items c.items_by_position.items };
}

fn compare_tables(a: &PlacedVersion, b: &PlacedVersion) -> Ordering
    ensures { result ≡ table_cmp a.now b.now }
{
    number(a, 0).cmp(&number(b, 0)).then(a.place.cmp(&b.place))
}

fn compare_positions(a: &PlacedVersion, b: &PlacedVersion) -> Ordering
    ensures { result ≡ position_cmp a.now b.now }
{
    a.place.0.cmp(&b.place.0)
}

fn copied<'a>(alloc: Global, rows: &[PlacedVersion<'a>]) -> Result<Vec<PlacedVersion<'a>>, Memory>
    ensures { IfOk result (λ copy. copy.items ≡ rows.now) }
{
    let mut copy = Vec::new(alloc);
    copy.extend_from_slice(rows)?;
    Ok(copy)
}

fn sort_by_table(rows: &mut Vec<PlacedVersion>) -> Result<(), Memory>
    ensures { OnOk result (rows.new.items ≡ sorted table_cmp rows.old.items) }
{
    rows.sort_by(|a, b| compare_tables(a, b))?;
    Ok(())
}

fn sort_by_position(rows: &mut Vec<PlacedVersion>) -> Result<(), Memory>
    ensures { OnOk result (rows.new.items ≡ sorted position_cmp rows.old.items) }
{
    rows.sort_by(|a, b| compare_positions(a, b))?;
    Ok(())
}

fn sorted_by_table<'a>(
    alloc: Global,
    rows: &[PlacedVersion<'a>],
) -> Result<Vec<PlacedVersion<'a>>, Memory>
    ensures { IfOk result (λ by_table. by_table.items ≡ sorted table_cmp rows.now) }
{
    let mut by_table = copied(alloc, rows)?;
    sort_by_table(&mut by_table)?;
    Ok(by_table)
}

fn sorted_by_position<'a>(
    alloc: Global,
    rows: &[PlacedVersion<'a>],
) -> Result<Vec<PlacedVersion<'a>>, Memory>
    ensures { IfOk result (λ by_position. by_position.items ≡ sorted position_cmp rows.now) }
{
    let mut by_position = copied(alloc, rows)?;
    sort_by_position(&mut by_position)?;
    Ok(by_position)
}

impl<'a> Catalog<'a> {
    /// Those of an image that has these entries and these base rows of its system tables. Sorts the rows.
    pub fn of(
        alloc: Global,
        positions: &Positions<'a>,
        entries: &'a [TxEntry],
        first: &'a [Version],
        second: &'a [Version],
    ) -> Result<Catalog<'a>, Memory>
        requires { positions.now ≡ entries.now }
        ensures { IfOk result (λ made. made ≡ (entries.now, words.catalog_rows entries.now first.now second.now)) }
    {
        let tables = placed_rows(alloc, positions, first)?;
        let items = placed_rows(alloc, positions, second)?;
        let by_table = sorted_by_table(alloc, &tables)?;
        let tables_by_position = sorted_by_position(alloc, &tables)?;
        let items_by_position = sorted_by_position(alloc, &items)?;
        Ok(Catalog {
            entries,
            tables,
            items,
            by_table,
            tables_by_position,
            items_by_position,
        })
    }

    /// Whether the rows about the table keep the rules. Goes through all rows, and takes for each of those about the
    /// table, of which there are few where the first rules hold, two ordered searches. The only error is want of
    /// memory.
    pub fn keeps_the_rules(&self, alloc: Global, table: TableId) -> Result<bool, Memory>
        ensures { IfOk result (λ keeps. keeps ≡ spec.keeps_the_rules self.now.0 self.now.1 (pos table)) }
    {
        let tables = rows_about(alloc, &self.tables, i128::from(table))?;
        if !tables_are_right(alloc, &tables)? {
            return Ok(false);
        }
        if !ids_follow(&self.tables, &tables, table) {
            return Ok(false);
        }
        if !self.names_are_new(alloc, table, &tables)? {
            return Ok(false);
        }
        self.items_keep_the_rules(alloc, table, &tables)
    }

    /// Whether the names in these rows about the table are new.
    fn names_are_new(
        &self,
        alloc: Global,
        table: TableId,
        tables: &[PlacedVersion],
    ) -> Result<bool, Memory>
        requires { seen tables.now ≡ words.tables_about self.now.1 (pos table) }
        ensures { IfOk result (λ are. are ≡ names.table_names_are_new self.now.1 (pos table)) }
    {
        table_names_are_new(alloc, &self.by_table, tables)
    }

    /// Whether each transaction in which one of these rows about the table starts is one statement about it.
    fn is_by_statements(
        &self,
        table: TableId,
        tables: &[PlacedVersion],
        items: &[PlacedVersion],
    ) -> bool
        requires tables { seen tables.now ≡ words.tables_about self.now.1 (pos table) }
        requires items { seen items.now ≡ words.items_about self.now.1 (pos table) }
        ensures { result ≡ statements.one_statement self.now.0 self.now.1 (pos table) }
    {
        let by_position = ByPosition {
            entries: self.entries,
            tables: &self.tables_by_position,
            items: &self.items_by_position,
        };
        one_statement(&by_position, table, tables, items)
    }

    /// Whether the rows keep the rules that speak of columns and indexes too.
    fn items_keep_the_rules(
        &self,
        alloc: Global,
        table: TableId,
        tables: &[PlacedVersion],
    ) -> Result<bool, Memory>
        requires { seen tables.now ≡ words.tables_about self.now.1 (pos table) }
        ensures { IfOk result (λ keep. keep ≡ items_keep_the_rules self.now.0 self.now.1 (pos table)) }
    {
        let items = rows_about(alloc, &self.items, i128::from(table))?;
        let columns = column_rows(alloc, &items)?;
        if !columns_are_right(alloc, &columns)? {
            return Ok(false);
        }
        let first_columns = firsts(alloc, 1, &columns)?;
        let second_columns = seconds(alloc, 1, &columns)?;
        let indexes = index_rows(alloc, &items)?;
        let second_tables = seconds(alloc, 0, tables)?;
        let beside = BesideIndexes {
            second_tables: &second_tables,
            first_columns: &first_columns,
            second_columns: &second_columns,
            indexes: &indexes,
        };
        if !indexes_are_in_time(&beside) {
            return Ok(false);
        }
        if !self.is_by_statements(table, tables, &items) {
            return Ok(false);
        }
        if !changes_are_in_order(alloc, tables, &second_tables, &columns, &first_columns)? {
            return Ok(false);
        }
        column_names_are_new(alloc, &columns)
    }
}
