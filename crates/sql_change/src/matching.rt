//! The versions that a condition takes.

ghost use Rattle.std.specs.Prelude.{◌≡◌, ◌≢◌, IfErr, IfOk, Ok, Err, map};
ghost use Rattle.sql_value.specs.declared.refusal.Refusal.TheVariants.{NoMemory};
ghost use Rattle.spec_model.specs.Changes as spec;
ghost use Rattle.spec_model.specs.Lists.{checked_filter};
ghost use Rattle.spec_model.specs.Parts.{base_row};
ghost use Rattle.spec_model.specs.Where as conditions;

use sql_expr::{RowRef, holds};
use sql_parts::{Columns, KeyedTable, LiveVersions, key_fixed};
use sql_types::{Part, Version};
use sql_value::{ColumnDef, Expr, Refusal};
use std::alloc::Global;

/// The versions that stand and that the condition takes, in key order. None is copied.
#[tactic(auto, unfolding(spec_model::specs::Changes::versions_matched))]
pub(crate) fn versions_matched<'a, R: LiveVersions>(
    alloc: Global,
    table: &KeyedTable,
    cond: &Option<Expr>,
    versions: &'a R,
) -> Result<Vec<&'a Version>, Refusal>
    requires { R.are_of versions.now table.now }
    ensures ok { IfOk result (λ taken.
        spec.versions_matched table.now.columns cond.now (R.versions versions.now)
        ≡ Ok (map (λ v. v.now) taken.items)) }
    ensures err { IfErr result (λ e. e ≢ NoMemory →
        spec.versions_matched table.now.columns cond.now (R.versions versions.now) ≡ Err e) }
{
    let key = key_fixed(alloc, table, cond)?;
    let live_by_key = versions.in_key_order(alloc, table, &key)?;
    matched(
        alloc,
        table.columns(),
        &Columns::of(table.def(), Part::Base),
        cond,
        &live_by_key,
    )
}

#[tactic(auto, using(sql_parts::proofs::InTurn::filter_after_none))]
fn matched<'a>(
    alloc: Global,
    declared: &[ColumnDef],
    columns: &Columns,
    cond: &Option<Expr>,
    live_by_key: &[&'a Version],
) -> Result<Vec<&'a Version>, Refusal>
    ensures ok { IfOk result
        (λ taken. checked_filter (λ v. conditions.holds columns.now cond.now (base_row declared.now v))
        (map (λ v. v.now) live_by_key.now) ≡ Ok (map (λ v. v.now) taken.items)) }
    ensures err { IfErr result (λ e. e ≢ NoMemory →
        checked_filter (λ v. conditions.holds columns.now cond.now (base_row declared.now v))
        (map (λ v. v.now) live_by_key.now) ≡ Err e) }
{
    let mut taken = Vec::new(alloc);
    for version in live_by_key {
        if holds(columns, cond, &RowRef::of_version(declared, *version))? {
            taken.push(*version)?;
        }
    }
    Ok(taken)
}
