//! The rows in the order of ORDER BY.

ghost use Rattle.std.specs.Prelude.{◌≡◌, ◌∷◌, ◌++◌, List, IfOk, OnOk, map};
ghost use Rattle.std.specs.List.{list_any};
ghost use Rattle.spec_model.specs.Rows.{Row as SpecRow};
ghost use Rattle.spec_model.specs.Lists.{sorted};
ghost use Rattle.spec_model.specs.Query as spec;
ghost use Rattle.sql_select.specs.SortKeys.{key_of, key_cmp, keys_cmp, same_place};

use crate::showing::value_in;
use base_types::{Memory, Name};
use sql_parts::Columns;
use sql_types::Row;
use sql_value::{Value, compare};
use std::alloc::Global;
use std::cmp::Ordering;

/// A column by which rows are sorted.
#[derive(Clone, Copy, Debug)]
pub struct SortKey {
    /// The place of its values in the rows, if it is there.
    pub place: Option<usize>,
    pub descending: bool,
}

/// The keys of the columns in ORDER BY: each is looked up once.
fn sort_keys(
    alloc: Global,
    columns: &Columns,
    order: &[(Name, bool)],
) -> Result<Vec<SortKey>, Memory>
    ensures { IfOk result (λ keys. keys.items ≡ map (key_of columns.now) order.now) }
{
    let mut keys = Vec::with_capacity(alloc, order.len())?;
    for by in order {
        keys.push(SortKey {
            place: columns.place_of(&by.0),
            descending: by.1,
        })?;
    }
    Ok(keys)
}

/// Whether both are one place, or neither is there.
pub(crate) fn is_same_place(a: Option<usize>, b: Option<usize>) -> bool
    ensures { result ≡ same_place a b }
{
    match (a, b) {
        (Some(a), Some(b)) => a == b,
        (None, None) => true,
        _ => false,
    }
}

fn has_place(keys: &[SortKey], place: Option<usize>) -> bool
    ensures { result ≡ list_any (λ key. same_place key.place place) keys.now }
{
    keys.iter().any(|key| is_same_place(key.place, place))
}

/// Adds a key, but for one of a column that has come before: rows that are compared there are equal in it.
#[tactic(auto, using(crate::proofs::RepeatedKeys::put_behind))]
fn add_key(kept: &mut Vec<SortKey>, key: SortKey) -> Result<(), Memory>
    ensures { OnOk result ((rest : List SortKey) (a b : SpecRow)
        → keys_cmp (kept.new.items ++ rest) a b ≡ keys_cmp (kept.old.items ++ key ∷ rest) a b) }
{
    if has_place(kept.as_slice(), key.place) {
        return Ok(());
    }
    kept.push(key)?;
    Ok(())
}

/// The keys but for those of a column that has come before, so no more than there are columns.
fn without_repeated(alloc: Global, keys: &[SortKey]) -> Result<Vec<SortKey>, Memory>
    ensures { IfOk result (λ kept. (a b : SpecRow) → keys_cmp kept.items a b ≡ keys_cmp keys.now a b) }
{
    let mut kept = Vec::new(alloc);
    for &key in keys {
        add_key(&mut kept, key)?;
    }
    Ok(kept)
}

/// How two rows stand to each other by one column.
fn compare_by(key: SortKey, a: &[Value], b: &[Value]) -> Ordering
    ensures { result ≡ key_cmp key a.now b.now }
{
    let null = Value::Null;
    let x = value_in(key.place, a, &null);
    let y = value_in(key.place, b, &null);
    if key.descending {
        compare(y, x)
    } else {
        compare(x, y)
    }
}

/// How two rows stand to each other by the first column, then by the second, and so on.
fn compare_rows(keys: &[SortKey], a: &[Value], b: &[Value]) -> Ordering
    ensures { result ≡ keys_cmp keys.now a.now b.now }
{
    for &key in keys {
        let order = compare_by(key, a, b);
        if order != Ordering::Equal {
            return order;
        }
    }
    Ordering::Equal
}

/// The rows by their keys; those that are equal in all of them keep their order.
fn sorted_rows(keys: &[SortKey], mut rows: Vec<Row>) -> Result<Vec<Row>, Memory>
    ensures { IfOk result (λ out. out.items ≡ sorted (keys_cmp keys.now) rows.items) }
{
    rows.sort_by(|a, b| compare_rows(keys, a.as_slice(), b.as_slice()))?;
    Ok(rows)
}

/// The rows by the columns of ORDER BY; those that are equal in all of them keep their order.
pub(crate) fn ordered(
    alloc: Global,
    columns: &Columns,
    order: &[(Name, bool)],
    rows: Vec<Row>,
) -> Result<Vec<Row>, Memory>
    ensures { IfOk result (λ out. out.items ≡ sorted (spec.order_cmp columns.now order.now) rows.items) }
{
    let keys = sort_keys(alloc, columns, order)?;
    let kept = without_repeated(alloc, &keys)?;
    sorted_rows(&kept, rows)
}
