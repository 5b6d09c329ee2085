//! Rows in written order, among which a key is found by halving.

ghost use Rattle.std.specs.Prelude.{◌≡◌};
ghost use Rattle.std.specs.List.{slice_get};
ghost use Rattle.sql_change.specs.KeyOrder.{has_key_of, is_below, is_there, passes};

use base_types::{Items, Memory};
use sql_parts::{KeyedTable, compare_by_key, same_key};
use sql_types::Row;
use std::alloc::Global;

/// Rows, and their places in the order of their keys.
#[derive(Drop)]
pub struct KeptRows {
    pub rows: Items<Row>,
    pub by_key: Vec<usize>,
}

impl KeptRows {
    ghost use Rattle.std.specs.Prelude.{◌≡◌, ◌++◌, ◌∷◌, ◌≤◌, [], OnOk, length};
    ghost use Rattle.std.specs.List.{insert, list_any};
    ghost use Rattle.sql_change.specs.KeyOrder.{InKeyOrder, has_key_of, place_of};

    /// No rows.
    pub fn new(alloc: Global) -> KeptRows
        ensures rows { result.rows ≡ [] }
        ensures by_key { result.by_key.items ≡ [] }
    {
        KeptRows {
            rows: Items::new(alloc),
            by_key: Vec::new(alloc),
        }
    }

    /// How many of the rows have a lower key than this one, by halving.
    pub fn place_of(&self, table: &KeyedTable, row: &Row) -> usize
        requires { InKeyOrder table.now.columns self.now.rows self.now.by_key.items }
        ensures value { result ≡ place_of table.now.columns self.now.rows row.now self.now.by_key.items }
        ensures bound { result ≤ length self.now.by_key.items }
    {
        let by_key = self.by_key.as_slice();
        by_key.partition_point(|place| is_below_at(table, &self.rows, *place, row))
    }

    /// Whether one of the rows has the key of this one, whose place among them is given.
    pub fn has_key_of(&self, table: &KeyedTable, place: usize, row: &Row) -> bool
        requires in_order { InKeyOrder table.now.columns self.now.rows self.now.by_key.items }
        requires here { place ≡ place_of table.now.columns self.now.rows row.now self.now.by_key.items }
        ensures { result ≡ list_any (has_key_of table.now.columns row.now) self.now.rows }
    {
        has_key_at_rank(table, &self.rows, &self.by_key, place, row)
    }

    /// A row more, whose key has this place in the order of keys.
    pub fn add(&mut self, place: usize, row: Row) -> Result<(), Memory>
        requires { place ≤ length self.old.by_key.items }
        ensures rows { OnOk result (self.new.rows ≡ self.old.rows ++ row ∷ []) }
        ensures by_key { OnOk result
            (self.new.by_key.items ≡ insert self.old.by_key.items place (length self.old.rows)) }
    {
        self.by_key.insert(place, self.rows.len())?;
        self.rows.push(row)?;
        Ok(())
    }
}

/// Whether the row at a place has a lower key than this row.
fn is_below_at(table: &KeyedTable, rows: &Items<Row>, place: usize, row: &Row) -> bool
    ensures { result ≡ passes (is_below table.now.columns row.now) rows.now place }
{
    match rows.get(place) {
        Some(other) => compare_by_key(table, other, row).is_lt(),
        None => false,
    }
}

/// Whether the row at a place has the key of this row.
fn has_key_at(table: &KeyedTable, rows: &Items<Row>, place: usize, row: &Row) -> bool
    ensures { result ≡ passes (has_key_of table.now.columns row.now) rows.now place }
{
    match rows.get(place) {
        Some(other) => same_key(table, other, row),
        None => false,
    }
}

/// Whether the row at a place in the order of keys has the key of this row.
fn has_key_at_rank(
    table: &KeyedTable,
    rows: &Items<Row>,
    by_key: &[usize],
    place: usize,
    row: &Row,
) -> bool
    ensures { result ≡ is_there (passes (has_key_of table.now.columns row.now) rows.now)
        (slice_get by_key.now place) }
{
    match by_key.get(place) {
        Some(at) => has_key_at(table, rows, *at, row),
        None => false,
    }
}
