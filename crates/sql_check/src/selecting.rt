//! The checks of SELECT.

ghost use Rattle.std.specs.Prelude.{◌≡◌, ◌&&◌};
ghost use Rattle.std.specs.List.{list_all};
ghost use Rattle.spec_model.specs.Checks.{is_declared, cond_names, cond_is_truth};
ghost use Rattle.spec_model.specs.Query as spec;

use crate::accepting::{is_condition, names_condition};
use crate::rows::refuse_if;
use base_types::Name;
use sql_expr::class_of_type;
use sql_parts::Columns;
use sql_types::{Agg, Select, SelectList};
use sql_value::{Class, Refusal};

/// Whether the column that an aggregate names is there.
fn agg_names(columns: &Columns, agg: &Agg) -> bool
    ensures { result ≡ spec.agg_names columns.now agg.now }
{
    match agg {
        Agg::Count => true,
        Agg::Sum(name) => columns.place_of(name).is_some(),
    }
}

/// Whether what an aggregate adds up are numbers.
fn sums_number(columns: &Columns, agg: &Agg) -> bool
    ensures { result ≡ spec.is_sum_of_numbers columns.now agg.now }
{
    match agg {
        Agg::Count => true,
        Agg::Sum(name) => match columns.type_of(name) {
            Some(ty) => matches!(class_of_type(&ty), Ok(Class::Whole | Class::Dec(_))),
            None => false,
        },
    }
}

fn all_name(columns: &Columns, aggs: &[Agg]) -> bool
    ensures { result ≡ list_all (spec.agg_names columns.now) aggs.now }
{
    aggs.iter().all(|agg| agg_names(columns, agg))
}

fn all_sum_numbers(columns: &Columns, aggs: &[Agg]) -> bool
    ensures { result ≡ list_all (spec.is_sum_of_numbers columns.now) aggs.now }
{
    aggs.iter().all(|agg| sums_number(columns, agg))
}

fn names_are_there(columns: &Columns, names: &[Name]) -> bool
    ensures { result ≡ list_all (is_declared columns.now) names.now }
{
    names.iter().all(|name| columns.place_of(name).is_some())
}

fn selects_declared(columns: &Columns, what: &SelectList) -> bool
    ensures { result ≡ spec.selects_declared columns.now what.now }
{
    match what {
        SelectList::All => true,
        SelectList::Columns(names) => names_are_there(columns, names.as_slice()),
        SelectList::Aggs(aggs) => all_name(columns, aggs.as_slice()),
    }
}

fn sums_numbers(columns: &Columns, what: &SelectList) -> bool
    ensures { result ≡ spec.sums_are_of_numbers columns.now what.now }
{
    match what {
        SelectList::All | SelectList::Columns(_) => true,
        SelectList::Aggs(aggs) => all_sum_numbers(columns, aggs.as_slice()),
    }
}

fn order_names(columns: &Columns, order: &[(Name, bool)]) -> bool
    ensures { result ≡ list_all (λ o. is_declared columns.now o.0) order.now }
{
    order.iter().all(|by| columns.place_of(&by.0).is_some())
}

/// Whether all columns that a SELECT names are there.
fn names_all(q: &Select, columns: &Columns) -> bool
    ensures { result ≡ ((spec.selects_declared columns.now q.now.what && cond_names columns.now q.now.cond)
        && list_all (λ o. is_declared columns.now o.0) q.now.order) }
{
    selects_declared(columns, &q.what)
        && names_condition(columns, &q.cond)
        && order_names(columns, q.order.as_slice())
}

/// Whether what a SELECT adds up are numbers, and its condition is a truth value.
fn has_classes(q: &Select, columns: &Columns) -> bool
    ensures { result ≡ (spec.sums_are_of_numbers columns.now q.now.what
        && cond_is_truth columns.now q.now.cond) }
{
    sums_numbers(columns, &q.what) && is_condition(columns, &q.cond)
}

/// Checks a SELECT over the columns of the part that it reads: NoSuchColumn where one that it names isn't there, and
/// else TypeMismatch where classes don't agree.
#[tactic(auto, unfolding(spec_model::specs::Query::select_check))]
pub fn check_select(q: &Select, columns: &Columns) -> Result<(), Refusal>
    ensures { result ≡ spec.select_check columns.now q.now }
{
    refuse_if(!names_all(q, columns), Refusal::NoSuchColumn)?;
    refuse_if(!has_classes(q, columns), Refusal::TypeMismatch)
}
