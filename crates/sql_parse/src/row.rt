//! INSERT, UPDATE and DELETE: a function for each rule.

ghost use Rattle.std.specs.Prelude.{◌≡◌, IfOk};
ghost use Rattle.sql_value.specs.Literals.{IsLiteral};
ghost use Rattle.spec_syntax.specs.Input.{ParsesUnlessOom};
ghost use Rattle.spec_syntax.specs.Row as spec;

use crate::cursor::Cursor;
use crate::expr::whole;
use crate::name::{literal, name};
use base_types::{Items, Name};
use spec_syntax::{ParseErr, Tag};
use sql_types::RowStmt;
use sql_value::{Expr, Value};
use std::alloc::Global;

/// Names with commas between.
#[tactic(auto, unfolding(spec_syntax::specs::Input::list, spec_syntax::specs::Input::list_from))]
pub(crate) fn names(alloc: Global, c: &mut Cursor<'_>) -> Result<Items<Name>, ParseErr>
    ensures { ParsesUnlessOom (spec.names c.old) result c.new }
{
    let mut found = Items::new(alloc);
    for _turn in 0..c.tokens_left() {
        found.push(name(alloc, c)?)?;
        if !c.eat(Tag::Comma) {
            return Ok(found);
        }
    }
    Err(ParseErr::Syntax)
}

/// Names in parentheses.
#[tactic(auto, unfolding(spec_syntax::specs::Row::name_list))]
pub(crate) fn name_list(alloc: Global, c: &mut Cursor<'_>) -> Result<Items<Name>, ParseErr>
    ensures { ParsesUnlessOom (spec.name_list c.old) result c.new }
{
    c.expect(Tag::Open)?;
    let found = names(alloc, c)?;
    c.expect(Tag::Close)?;
    Ok(found)
}

#[tactic(auto, unfolding(spec_syntax::specs::Row::number))]
fn number(alloc: Global, c: &mut Cursor<'_>) -> Result<Value, ParseErr>
    ensures value { ParsesUnlessOom (spec.number c.old) result c.new }
    ensures literal { IfOk result IsLiteral }
{
    match c.peek() {
        Tag::Number => literal(alloc, c),
        _ => Err(ParseErr::Syntax),
    }
}

/// The number with the other sign.
fn negated(value: Value) -> Value
    requires { IsLiteral value }
    ensures { result ≡ spec.negated value }
{
    match value {
        Value::Num { v, s } => Value::Num { v: -v, s },
        other => other,
    }
}

#[tactic(auto, unfolding(spec_syntax::specs::Row::value))]
fn value(alloc: Global, c: &mut Cursor<'_>) -> Result<Value, ParseErr>
    ensures { ParsesUnlessOom (spec.value c.old) result c.new }
{
    match c.peek() {
        Tag::Plus => {
            c.take();
            number(alloc, c)
        }
        Tag::Minus => {
            c.take();
            Ok(negated(number(alloc, c)?))
        }
        _ => literal(alloc, c),
    }
}

#[tactic(auto, unfolding(spec_syntax::specs::Input::list, spec_syntax::specs::Input::list_from))]
fn values(alloc: Global, c: &mut Cursor<'_>) -> Result<Items<Value>, ParseErr>
    ensures { ParsesUnlessOom (spec.values c.old) result c.new }
{
    let mut found = Items::new(alloc);
    for _turn in 0..c.tokens_left() {
        found.push(value(alloc, c)?)?;
        if !c.eat(Tag::Comma) {
            return Ok(found);
        }
    }
    Err(ParseErr::Syntax)
}

#[tactic(auto, unfolding(spec_syntax::specs::Row::row))]
fn row(alloc: Global, c: &mut Cursor<'_>) -> Result<Items<Value>, ParseErr>
    ensures { ParsesUnlessOom (spec.row c.old) result c.new }
{
    c.expect(Tag::Open)?;
    let found = values(alloc, c)?;
    c.expect(Tag::Close)?;
    Ok(found)
}

#[tactic(auto, unfolding(spec_syntax::specs::Input::list, spec_syntax::specs::Input::list_from))]
fn rows(alloc: Global, c: &mut Cursor<'_>) -> Result<Items<Items<Value>>, ParseErr>
    ensures { ParsesUnlessOom (spec.rows c.old) result c.new }
{
    let mut found = Items::new(alloc);
    for _turn in 0..c.tokens_left() {
        found.push(row(alloc, c)?)?;
        if !c.eat(Tag::Comma) {
            return Ok(found);
        }
    }
    Err(ParseErr::Syntax)
}

#[tactic(auto, unfolding(spec_syntax::specs::Row::columns))]
fn columns(alloc: Global, c: &mut Cursor<'_>) -> Result<Option<Items<Name>>, ParseErr>
    ensures { ParsesUnlessOom (spec.columns c.old) result c.new }
{
    if !c.eat(Tag::Open) {
        return Ok(None);
    }
    let found = names(alloc, c)?;
    c.expect(Tag::Close)?;
    Ok(Some(found))
}

/// What stands behind INSERT.
#[tactic(auto, unfolding(spec_syntax::specs::Row::insert))]
pub(crate) fn insert(alloc: Global, c: &mut Cursor<'_>) -> Result<RowStmt, ParseErr>
    ensures { ParsesUnlessOom (spec.insert c.old) result c.new }
{
    c.eat(Tag::Into);
    let table = name(alloc, c)?;
    let columns = columns(alloc, c)?;
    c.expect(Tag::Values)?;
    let rows = rows(alloc, c)?;
    Ok(RowStmt::Insert {
        table,
        columns,
        rows,
    })
}

/// WHERE and its condition, if it comes next.
#[tactic(auto, unfolding(spec_syntax::specs::Row::filter))]
pub(crate) fn filter(alloc: Global, c: &mut Cursor<'_>) -> Result<Option<Expr>, ParseErr>
    ensures { ParsesUnlessOom (spec.filter c.old) result c.new }
{
    if !c.eat(Tag::Where) {
        return Ok(None);
    }
    Ok(Some(whole(alloc, c)?))
}

#[tactic(auto, unfolding(spec_syntax::specs::Row::assignment))]
fn assignment(alloc: Global, c: &mut Cursor<'_>) -> Result<(Name, Expr), ParseErr>
    ensures { ParsesUnlessOom (spec.assignment c.old) result c.new }
{
    let column = name(alloc, c)?;
    c.expect(Tag::Equal)?;
    let to = whole(alloc, c)?;
    Ok((column, to))
}

#[tactic(auto, unfolding(spec_syntax::specs::Input::list, spec_syntax::specs::Input::list_from))]
fn assignments(alloc: Global, c: &mut Cursor<'_>) -> Result<Items<(Name, Expr)>, ParseErr>
    ensures { ParsesUnlessOom (spec.assignments c.old) result c.new }
{
    let mut found = Items::new(alloc);
    for _turn in 0..c.tokens_left() {
        found.push(assignment(alloc, c)?)?;
        if !c.eat(Tag::Comma) {
            return Ok(found);
        }
    }
    Err(ParseErr::Syntax)
}

/// What stands behind UPDATE.
#[tactic(auto, unfolding(spec_syntax::specs::Row::update))]
pub(crate) fn update(alloc: Global, c: &mut Cursor<'_>) -> Result<RowStmt, ParseErr>
    ensures { ParsesUnlessOom (spec.update c.old) result c.new }
{
    let table = name(alloc, c)?;
    c.expect(Tag::Set)?;
    let sets = assignments(alloc, c)?;
    let cond = filter(alloc, c)?;
    Ok(RowStmt::Update { table, sets, cond })
}

/// What stands behind DELETE.
#[tactic(auto, unfolding(spec_syntax::specs::Row::delete))]
pub(crate) fn delete(alloc: Global, c: &mut Cursor<'_>) -> Result<RowStmt, ParseErr>
    ensures { ParsesUnlessOom (spec.delete c.old) result c.new }
{
    c.eat(Tag::From);
    let table = name(alloc, c)?;
    let cond = filter(alloc, c)?;
    Ok(RowStmt::Delete { table, cond })
}
