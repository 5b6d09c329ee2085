//! How versions compare in the order of an index.

ghost use Rattle.std.specs.Prelude.{◌≡◌};
ghost use Rattle.spec_model.specs.Keys.{key_cmp};
ghost use Rattle.spec_model.specs.Rows.{event_cmp};
ghost use Rattle.store_table.specs.Orders.{column_values, comes_before, has_row_below, key_values, row_cmp};

use sql_parts::{Valued, compare_at, compare_values};
use sql_types::Version;
use std::cmp::Ordering;

/// The order of two versions by the columns with these ordinals.
#[tactic(auto, unfolding(spec_model::specs::Keys::key_cmp))]
fn compare_columns(ordinals: &[u16], a: &Version, b: &Version) -> Ordering
    ensures { result ≡ key_cmp (column_values ordinals.now a.now) (column_values ordinals.now b.now) }
{
    for ordinal in ordinals {
        let place = (*ordinal).saturating_sub(1) as usize;
        let order = compare_values(a.value_at(place), b.value_at(place));
        if order != Ordering::Equal {
            return order;
        }
    }
    Ordering::Equal
}

/// The order of two versions by the key whose columns stand at these places.
#[tactic(auto, unfolding(spec_model::specs::Keys::key_at))]
fn compare_keys(key: &[usize], a: &Version, b: &Version) -> Ordering
    ensures { result ≡ key_cmp (key_values key.now a.now) (key_values key.now b.now) }
{
    compare_at(key, a, b)
}

/// The order of the rows of an index: by its columns, and then by key.
pub(crate) fn compare_rows(ordinals: &[u16], key: &[usize], a: &Version, b: &Version) -> Ordering
    ensures { result ≡ row_cmp ordinals.now key.now a.now b.now }
{
    match compare_columns(ordinals, a, b) {
        Ordering::Equal => compare_keys(key, a, b),
        order => order,
    }
}

fn compare_starts(a: &Version, b: &Version) -> Ordering
    ensures { result ≡ event_cmp a.now.start b.now.start }
{
    a.start.cmp(&b.start)
}

/// Whether `a` comes before `b` in the order of an index. Versions with one row are ordered by their starts.
pub(crate) fn comes_before(ordinals: &[u16], key: &[usize], a: &Version, b: &Version) -> bool
    ensures { result ≡ comes_before ordinals.now key.now b.now a.now }
{
    match compare_rows(ordinals, key, a, b) {
        Ordering::Less => true,
        Ordering::Equal => compare_starts(a, b).is_lt(),
        Ordering::Greater => false,
    }
}

/// Whether the row of `a` comes before that of `b` in an index.
pub(crate) fn has_row_below(ordinals: &[u16], key: &[usize], a: &Version, b: &Version) -> bool
    ensures { result ≡ has_row_below ordinals.now key.now b.now a.now }
{
    compare_rows(ordinals, key, a, b).is_lt()
}
