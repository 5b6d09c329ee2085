//! The numbers of the changes of a table.

ghost use Rattle.std.specs.Prelude.{◌≡◌, ◌<◌, ◌^◌, IfOk, unwrap_or};
ghost use Rattle.std.specs.Option.{option_copied};
ghost use Rattle.sql_value.specs.declared.value.Value.TheVariants.{Null};
ghost use Rattle.spec_model.specs.Alter as spec;
ghost use Rattle.spec_model.specs.Lists as lists;

use base_types::{Memory, TableId};
use sql_parts::Valued;
use sql_types::Version;
use sql_value::Value;

/// The greatest number of a change, which is the greatest of the type of these numbers.
const LAST_CHANGE: u128 = (1 << 31) - 1;

/// The number of the next change of a table: one above the greatest in the rows about it, of both system tables and
/// whether they ended or not. Looks at each version once, and copies none. Behind the last number there is none, and the
/// answer is want of memory. No statements lead there: a table has at most 64 columns, and each is added and dropped once
/// at most.
#[tactic(auto, unfolding(spec_model::specs::Alter::next_change), using(crate::proofs::Greatest::of_both))]
pub fn next_change(id: TableId, first: &[Version], second: &[Version]) -> Result<u64, Memory>
    ensures value { IfOk result (λ next. next ≡ spec.next_change id first.now second.now) }
    ensures small { IfOk result (λ next. next < 2 ^ 31) }
{
    let greatest = greatest_change(1, id, first).max(greatest_change(2, id, second));
    if greatest < LAST_CHANGE {
        Ok(greatest as u64 + 1)
    } else {
        Err(Memory)
    }
}

/// The greatest change of the rows about a table, which stands at this place of a row; 0 where there is none.
#[tactic(auto, using(crate::proofs::Greatest::of_three))]
fn greatest_change(place: usize, id: TableId, versions: &[Version]) -> u128
    ensures { result ≡ lists.greatest (spec.changes_at place id versions.now) }
{
    let mut greatest = 0;
    for version in versions {
        if count_at(0, version) == id.into() {
            greatest = greatest.max(count_at(place, version));
        }
    }
    greatest
}

/// The number at this place of a row.
fn count_at(place: usize, version: &Version) -> u128
    ensures { result ≡ spec.count_at place version.now }
{
    count_in(version.value_at(place))
}

/// A whole number that isn't negative; anything else counts as 0.
fn count_in(value: Option<&Value>) -> u128
    ensures { result ≡ spec.count_in (unwrap_or (option_copied value.entry) Null) }
{
    match value {
        Some(Value::Num { v, .. }) if *v >= 0 => *v as u128,
        _ => 0,
    }
}
