//! What a CREATE TABLE says of the ledger: a function for each rule.

ghost use Rattle.std.specs.Prelude.{◌≡◌};
ghost use Rattle.spec_syntax.specs.Input.{ParsesUnlessOom, ConvertsUnlessOom};
ghost use Rattle.spec_syntax.specs.Ledger as spec;

use crate::cursor::Cursor;
use crate::name::name;
use crate::word::option_word;
use base_types::Name;
use spec_syntax::{Choice, Choices, Ledger, OptionName, ParseErr, Tag};
use sql_value::TableKind;
use std::alloc::Global;

fn same_option(a: OptionName, b: OptionName) -> bool
    ensures { result ≡ spec.same_option a b }
{
    a == b
}

/// The word of this option.
#[tactic(auto, unfolding(spec_syntax::specs::Ledger::the_option))]
fn the_option(c: &mut Cursor<'_>, wanted: OptionName) -> Result<(), ParseErr>
    ensures { ParsesUnlessOom (spec.the_option wanted c.old) result c.new }
{
    if same_option(option_word(c)?, wanted) {
        Ok(())
    } else {
        Err(ParseErr::Syntax)
    }
}

#[tactic(auto, unfolding(spec_syntax::specs::Ledger::one_choice))]
fn one_choice(alloc: Global, c: &mut Cursor<'_>) -> Result<Choice, ParseErr>
    ensures { ParsesUnlessOom (spec.one_choice c.old) result c.new }
{
    match option_word(c)? {
        OptionName::AppendOnly => {
            c.expect(Tag::Equal)?;
            c.expect(Tag::On)?;
            Ok(Choice::AppendOnly)
        }
        OptionName::LedgerView => {
            c.expect(Tag::Equal)?;
            Ok(Choice::View(name(alloc, c)?))
        }
        _ => Err(ParseErr::Syntax),
    }
}

/// The choices with one more, which must be the first of its kind.
fn with_choice(found: Choices, chosen: Choice) -> Result<Choices, ParseErr>
    ensures { ConvertsUnlessOom (spec.with_choice found chosen) result }
{
    let Choices { append_only, view } = found;
    match (chosen, append_only, view) {
        (Choice::AppendOnly, false, view) => Ok(Choices {
            append_only: true,
            view,
        }),
        (Choice::View(view), append_only, None) => Ok(Choices {
            append_only,
            view: Some(view),
        }),
        _ => Err(ParseErr::Syntax),
    }
}

#[tactic(auto, unfolding(spec_syntax::specs::Ledger::choice_step))]
fn choice_step(alloc: Global, c: &mut Cursor<'_>, found: Choices) -> Result<Choices, ParseErr>
    ensures { ParsesUnlessOom (spec.choice_step found c.old) result c.new }
{
    let chosen = one_choice(alloc, c)?;
    with_choice(found, chosen)
}

#[tactic(auto, unfolding(spec_syntax::specs::Input::fold, spec_syntax::specs::Input::fold_from))]
fn all_choices(alloc: Global, c: &mut Cursor<'_>, mut found: Choices) -> Result<Choices, ParseErr>
    ensures { ParsesUnlessOom (spec.choices found c.old) result c.new }
{
    for _turn in 0..c.tokens_left() {
        found = choice_step(alloc, c, found)?;
        if !c.eat(Tag::Comma) {
            return Ok(found);
        }
    }
    Err(ParseErr::Syntax)
}

fn no_choices() -> Choices
    ensures { result ≡ spec.no_choices }
{
    Choices {
        append_only: false,
        view: None,
    }
}

/// What stands behind LEDGER.
#[tactic(auto, unfolding(spec_syntax::specs::Ledger::chosen))]
fn chosen(alloc: Global, c: &mut Cursor<'_>) -> Result<Choices, ParseErr>
    ensures { ParsesUnlessOom (spec.chosen c.old) result c.new }
{
    c.expect(Tag::Equal)?;
    c.expect(Tag::On)?;
    if !c.eat(Tag::Open) {
        return Ok(no_choices());
    }
    let found = all_choices(alloc, c, no_choices())?;
    c.expect(Tag::Close)?;
    Ok(found)
}

/// What stands behind SYSTEM_VERSIONING.
#[tactic(auto, unfolding(spec_syntax::specs::Ledger::versions))]
fn versions(alloc: Global, c: &mut Cursor<'_>) -> Result<Option<Name>, ParseErr>
    ensures { ParsesUnlessOom (spec.versions c.old) result c.new }
{
    c.expect(Tag::Equal)?;
    c.expect(Tag::On)?;
    if !c.eat(Tag::Open) {
        return Ok(None);
    }
    the_option(c, OptionName::HistoryTable)?;
    c.expect(Tag::Equal)?;
    let history = name(alloc, c)?;
    c.expect(Tag::Close)?;
    Ok(Some(history))
}

/// A table with versions, which is no append-only one.
fn updatable(history: Option<Name>, found: Choices) -> Result<Ledger, ParseErr>
    ensures { ConvertsUnlessOom (spec.updatable history found) result }
{
    let Choices { append_only, view } = found;
    if append_only {
        return Err(ParseErr::Syntax);
    }
    Ok(Ledger {
        kind: TableKind::Updatable,
        history,
        view,
    })
}

fn kind_of(append_only: bool) -> TableKind
    ensures { result ≡ spec.kind_of append_only }
{
    if append_only {
        TableKind::AppendOnly
    } else {
        TableKind::Updatable
    }
}

/// A table of which nothing but these choices is said.
fn alone(found: Choices) -> Ledger
    ensures { result ≡ spec.alone found }
{
    let Choices { append_only, view } = found;
    Ledger {
        kind: kind_of(append_only),
        history: None,
        view,
    }
}

#[tactic(auto, unfolding(spec_syntax::specs::Ledger::ledger))]
fn ledger_options(alloc: Global, c: &mut Cursor<'_>) -> Result<Ledger, ParseErr>
    ensures { ParsesUnlessOom (spec.ledger c.old) result c.new }
{
    match option_word(c)? {
        OptionName::SystemVersioning => {
            let history = versions(alloc, c)?;
            c.expect(Tag::Comma)?;
            the_option(c, OptionName::Ledger)?;
            let found = chosen(alloc, c)?;
            updatable(history, found)
        }
        OptionName::Ledger => {
            let found = chosen(alloc, c)?;
            if !c.eat(Tag::Comma) {
                return Ok(alone(found));
            }
            the_option(c, OptionName::SystemVersioning)?;
            let history = versions(alloc, c)?;
            updatable(history, found)
        }
        _ => Err(ParseErr::Syntax),
    }
}

/// WITH and what it says, if it comes next.
#[tactic(auto, unfolding(spec_syntax::specs::Ledger::ledger_part))]
pub(crate) fn ledger_part(alloc: Global, c: &mut Cursor<'_>) -> Result<Ledger, ParseErr>
    ensures { ParsesUnlessOom (spec.ledger_part c.old) result c.new }
{
    if !c.eat(Tag::With) {
        return Ok(alone(no_choices()));
    }
    c.expect(Tag::Open)?;
    let found = ledger_options(alloc, c)?;
    c.expect(Tag::Close)?;
    Ok(found)
}
