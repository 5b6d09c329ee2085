//! The key that a condition fixes.

ghost use Rattle.std.specs.Prelude.{◌≡◌, ◌∷◌, [], IfOk, map};
ghost use Rattle.sql_value.specs.Tree.{tree};
ghost use Rattle.spec_model.specs.Lists.{all_some};
ghost use Rattle.spec_model.specs.Keys.{key_columns as spec_key_columns};
ghost use Rattle.spec_model.specs.Where as spec;
ghost use Rattle.sql_parts.specs.Fixed.{fixed_in};

use crate::keyed::KeyedTable;
use crate::keys::key_columns;
use base_types::{Items, Memory, Name};
use sql_scalar::to_column;
use sql_types::Key;
use sql_value::{ColumnDef, Expr, Op, Value, ValueErr, compare};
use std::alloc::Global;

/// Whether conversion left a value as it was; a text that is a date is its day.
fn is_unchanged(before: &Value, after: &Value) -> bool
    ensures { result ≡ spec.is_unchanged before.now after.now }
{
    match (before, after) {
        (Value::Text(_), Value::Date(_)) => true,
        _ => compare(before, after).is_eq(),
    }
}

fn unchanged_value(before: &Value, converted: Result<Value, ValueErr>) -> Option<Value>
    ensures { result ≡ spec.unchanged_value before.now converted }
{
    match converted {
        Ok(after) => {
            if is_unchanged(before, &after) {
                Some(after)
            } else {
                None
            }
        }
        Err(_) => None,
    }
}

/// What a literal fixes a column to, where it isn't NULL and its conversion doesn't change it.
fn fixed_to(column: &ColumnDef, literal: &Value) -> Result<Option<Value>, Memory>
    ensures { IfOk result (λ fixed. fixed ≡ spec.fixed_to column.now literal.now) }
{
    match literal {
        Value::Null => Ok(None),
        _ => {
            let converted = to_column(literal.copy()?, &column.ty);
            Ok(unchanged_value(literal, converted))
        }
    }
}

#[tactic(auto, using(crate::proofs::Fixed::or_else_none))]
fn fixed_by_part(column: &ColumnDef, name: &Name, literal: &Value) -> Result<Option<Value>, Memory>
    ensures { IfOk result (λ fixed. fixed ≡ spec.fixed_value ((name.now, literal.now) ∷ []) column.now) }
{
    if column.name == *name {
        fixed_to(column, literal)
    } else {
        Ok(None)
    }
}

/// What `a = b` fixes a column to, where one of the two is the column and the other a literal.
fn fixed_by_equality(column: &ColumnDef, a: &Expr, b: &Expr) -> Result<Option<Value>, Memory>
    ensures { IfOk result (λ fixed. fixed
        ≡ spec.fixed_value (spec.equality (tree a.now) (tree b.now)) column.now) }
{
    match (a, b) {
        (Expr::Col(name), Expr::Lit(literal)) => fixed_by_part(column, name, literal),
        (Expr::Lit(literal), Expr::Col(name)) => fixed_by_part(column, name, literal),
        _ => Ok(None),
    }
}

/// What the condition fixes a column to: by the first of the parts joined by AND that fixes it.
fn fixed_value(column: &ColumnDef, e: &Expr) -> Result<Option<Value>, Memory>
    ensures { IfOk result (λ fixed. fixed ≡ fixed_in column.now (tree e.now)) }
{
    match e {
        Expr::Bin(Op::And, a, b) => match fixed_value(column, a.get())? {
            Some(value) => Ok(Some(value)),
            None => fixed_value(column, b.get()),
        },
        Expr::Bin(Op::Eq, a, b) => fixed_by_equality(column, a.get(), b.get()),
        _ => Ok(None),
    }
}

/// The key that a condition fixes, where it fixes each column of the key: by `column = literal` or
/// `literal = column` among the parts that AND joins at the top, where the literal isn't NULL and conversion
/// to the column's type doesn't change it. Looks through the condition once for each column of the key.
#[tactic(auto, using(crate::proofs::Fixed::key_fixed_some, crate::proofs::Fixed::key_fixed_none))]
pub fn key_fixed(
    alloc: Global,
    table: &KeyedTable,
    cond: &Option<Expr>,
) -> Result<Option<Key>, Memory>
    ensures { IfOk result (λ key. key ≡ spec.key_fixed table.now.columns cond.now) }
{
    match cond {
        None => Ok(None),
        Some(e) => fixed_by(alloc, table, e),
    }
}

fn fixed_by(alloc: Global, table: &KeyedTable, e: &Expr) -> Result<Option<Key>, Memory>
    ensures { IfOk result (λ key. key
        ≡ all_some (map (λ c. fixed_in c (tree e.now)) (spec_key_columns table.now.columns))) }
{
    let columns = key_columns(alloc, table)?;
    fixed_values(alloc, &columns, e)
}

/// The values of the columns, where the condition fixes each.
#[tactic(auto, using(crate::proofs::Fixed::some_after_none))]
fn fixed_values(alloc: Global, columns: &[&ColumnDef], e: &Expr) -> Result<Option<Key>, Memory>
    ensures { IfOk result (λ key. key
        ≡ all_some (map (λ c. fixed_in c (tree e.now)) (map (λ c. c.now) columns.now))) }
{
    let mut key = Items::new(alloc);
    for column in columns {
        match fixed_value(*column, e)? {
            Some(value) => key.push(value)?,
            None => return Ok(None),
        }
    }
    Ok(Some(key))
}
