//! SELECT: a function for each rule.

ghost use Rattle.std.specs.Prelude.{◌≡◌};
ghost use Rattle.spec_syntax.specs.Input.{ParsesUnlessOom};
ghost use Rattle.spec_syntax.specs.Select as spec;

use crate::cursor::Cursor;
use crate::name::name;
use crate::row::{filter, names};
use crate::word::call_word;
use base_types::{Items, Name};
use spec_syntax::{CallName, ParseErr, Tag};
use sql_types::{Agg, Select, SelectList};
use std::alloc::Global;

#[tactic(auto, unfolding(spec_syntax::specs::Select::agg))]
fn agg(alloc: Global, c: &mut Cursor<'_>) -> Result<Agg, ParseErr>
    ensures { ParsesUnlessOom (spec.agg c.old) result c.new }
{
    let word = call_word(c)?;
    c.expect(Tag::Open)?;
    let found = called(alloc, c, word)?;
    c.expect(Tag::Close)?;
    Ok(found)
}

/// What stands in the parentheses.
fn called(alloc: Global, c: &mut Cursor<'_>, word: CallName) -> Result<Agg, ParseErr>
    ensures { ParsesUnlessOom (spec.agg_by word c.old) result c.new }
{
    match word {
        CallName::Count => {
            c.expect(Tag::Star)?;
            Ok(Agg::Count)
        }
        CallName::Sum => Ok(Agg::Sum(name(alloc, c)?)),
        _ => Err(ParseErr::Syntax),
    }
}

#[tactic(auto, unfolding(spec_syntax::specs::Input::list, spec_syntax::specs::Input::list_from))]
fn aggs(alloc: Global, c: &mut Cursor<'_>) -> Result<Items<Agg>, ParseErr>
    ensures { ParsesUnlessOom (spec.aggs c.old) result c.new }
{
    let mut found = Items::new(alloc);
    for _turn in 0..c.tokens_left() {
        found.push(agg(alloc, c)?)?;
        if !c.eat(Tag::Comma) {
            return Ok(found);
        }
    }
    Err(ParseErr::Syntax)
}

#[tactic(auto, unfolding(spec_syntax::specs::Select::what))]
fn what(alloc: Global, c: &mut Cursor<'_>) -> Result<SelectList, ParseErr>
    ensures { ParsesUnlessOom (spec.what c.old) result c.new }
{
    if c.calls() {
        return Ok(SelectList::Aggs(aggs(alloc, c)?));
    }
    if c.eat(Tag::Star) {
        return Ok(SelectList::All);
    }
    Ok(SelectList::Columns(names(alloc, c)?))
}

/// Whether the order falls.
#[tactic(auto, unfolding(spec_syntax::specs::Select::falls))]
fn falls(c: &mut Cursor<'_>) -> Result<bool, ParseErr>
    ensures { ParsesUnlessOom (spec.falls c.old) result c.new }
{
    if c.eat(Tag::Asc) {
        return Ok(false);
    }
    Ok(c.eat(Tag::Desc))
}

#[tactic(auto, unfolding(spec_syntax::specs::Select::sort))]
fn sort(alloc: Global, c: &mut Cursor<'_>) -> Result<(Name, bool), ParseErr>
    ensures { ParsesUnlessOom (spec.sort c.old) result c.new }
{
    let column = name(alloc, c)?;
    let down = falls(c)?;
    Ok((column, down))
}

#[tactic(auto, unfolding(spec_syntax::specs::Input::list, spec_syntax::specs::Input::list_from))]
fn sorts(alloc: Global, c: &mut Cursor<'_>) -> Result<Items<(Name, bool)>, ParseErr>
    ensures { ParsesUnlessOom (spec.sorts c.old) result c.new }
{
    let mut found = Items::new(alloc);
    for _turn in 0..c.tokens_left() {
        found.push(sort(alloc, c)?)?;
        if !c.eat(Tag::Comma) {
            return Ok(found);
        }
    }
    Err(ParseErr::Syntax)
}

#[tactic(auto, unfolding(spec_syntax::specs::Select::order))]
fn order(alloc: Global, c: &mut Cursor<'_>) -> Result<Items<(Name, bool)>, ParseErr>
    ensures { ParsesUnlessOom (spec.order c.old) result c.new }
{
    if !c.eat(Tag::Order) {
        return Ok(Items::new(alloc));
    }
    c.expect(Tag::By)?;
    sorts(alloc, c)
}

/// The order of what is shown, which aggregates don't have.
fn order_of(
    alloc: Global,
    c: &mut Cursor<'_>,
    shown: &SelectList,
) -> Result<Items<(Name, bool)>, ParseErr>
    ensures { ParsesUnlessOom (spec.order_of shown.now c.old) result c.new }
{
    match shown {
        SelectList::Aggs(_) => Ok(Items::new(alloc)),
        _ => order(alloc, c),
    }
}

/// What stands behind SELECT.
#[tactic(auto, unfolding(spec_syntax::specs::Select::select))]
pub(crate) fn select(alloc: Global, c: &mut Cursor<'_>) -> Result<Select, ParseErr>
    ensures { ParsesUnlessOom (spec.select c.old) result c.new }
{
    let what = what(alloc, c)?;
    c.expect(Tag::From)?;
    let table = name(alloc, c)?;
    let cond = filter(alloc, c)?;
    let order = order_of(alloc, c, &what)?;
    Ok(Select {
        table,
        what,
        cond,
        order,
    })
}
