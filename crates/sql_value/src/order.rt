//! The order of values.

ghost use Rattle.std.specs.Prelude.{◌≡◌};
ghost use Rattle.std.specs.Ordering.{as_partial_cmp, eq_by_cmp};
ghost use Rattle.std.specs.Cmp.{partial_order_from_own_ties};
ghost use Rattle.std.specs.Cmp.Rules.{comparing};
ghost use Rattle.std.proofs.Common.{rules};
ghost use Rattle.sql_value.specs.Order.{value_cmp, value_total, kind};

use crate::Value;
use crate::number::compare_numbers;
use std::cmp::Ordering;

/// NULL, then numbers by their exact values, then texts and bytes byte by byte, then days. It is a total
/// order, and numbers of one value and different scales are equal in it. Numbers of one scale are
/// compared as they are.
#[tactic(auto, unfolding(crate::specs::Order::value_cmp))]
pub fn compare(a: &Value, b: &Value) -> Ordering
    ensures { result ≡ value_cmp a.now b.now }
{
    match (a, b) {
        (Value::Num { v, s }, Value::Num { v: w, s: z }) => compare_numbers(*v, *s, *w, *z),
        (Value::Text(x), Value::Text(y)) => x.bytes().cmp(y.bytes()),
        (Value::Bytes(x), Value::Bytes(y)) => x.bytes().cmp(y.bytes()),
        (Value::Date(x), Value::Date(y)) => x.cmp(y),
        _ => kind_of(a).cmp(&kind_of(b)),
    }
}

fn kind_of(v: &Value) -> u8
    ensures { result ≡ kind v.now }
{
    match v {
        Value::Null => 0,
        Value::Num { .. } => 1,
        Value::Text(_) => 2,
        Value::Bytes(_) => 3,
        Value::Date(_) => 4,
    }
}

impl PartialEq for Value {
    ghost eq = { eq_by_cmp value_cmp };

    ghost laws = { Prim.search (value_total, comparing, rules) };

    fn eq(&self, other: &Value) -> bool {
        compare(self, other) == Ordering::Equal
    }
}

impl Eq for Value {
    ghost laws = { Prim.search (value_total, comparing, rules) };
}

impl PartialOrd for Value {
    ghost partial_cmp = { as_partial_cmp value_cmp };

    ghost laws = { partial_order_from_own_ties (Prim.search (value_total, comparing, rules))
        (Prim.search (value_total, comparing, rules)) };

    fn partial_cmp(&self, other: &Value) -> Option<Ordering> {
        Some(compare(self, other))
    }
}

impl Ord for Value {
    ghost cmp = { value_cmp };

    ghost total = { Prim.search (value_total, comparing, rules) };

    ghost matches_partial_cmp = { Prim.search (value_total, comparing, rules) };

    ghost matches_eq = { Prim.search (value_total, comparing, rules) };

    fn cmp(&self, other: &Value) -> Ordering {
        compare(self, other)
    }
}
