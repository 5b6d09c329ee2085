//! Names and literals.

ghost use Rattle.std.specs.Prelude.{◌≡◌, IfOk};
ghost use Rattle.std.specs.Option.{option_copied};
ghost use Rattle.spec_syntax.specs.Input.{ParsesUnlessOom, ParsesTextUnlessOom, ConvertsUnlessOom};
ghost use Rattle.sql_value.specs.Literal.{literal_of};
ghost use Rattle.sql_value.specs.Literals.{IsLiteral};
ghost use Rattle.spec_syntax.specs.Expr as spec;

use crate::cursor::Cursor;
use base_types::Name;
use spec_syntax::{ParseErr, Tag};
use sql_scalar::{literals_are_read_back, read_literal};
use sql_value::{Expr, LitErr, Value};
use std::alloc::Global;

fn after_open(text: &str) -> Option<&str>
    ensures { option_copied result ≡ spec.after_open text.now }
{
    text.strip_prefix('[')
}

fn before_close(text: &str) -> Option<&str>
    ensures { option_copied result ≡ spec.before_close text.now }
{
    text.strip_suffix(']')
}

/// What stands between the brackets.
#[tactic(auto, unfolding(spec_syntax::specs::Expr::inside))]
fn inside(text: &str) -> Option<&str>
    ensures { option_copied result ≡ spec.inside text.now }
{
    before_close(after_open(text)?)
}

/// The text of a name, bare or in brackets.
#[tactic(auto, unfolding(spec_syntax::specs::Expr::name))]
pub(crate) fn name_text<'a>(c: &mut Cursor<'a>) -> Result<&'a str, ParseErr>
    ensures { ParsesTextUnlessOom (spec.name c.old) result c.new }
{
    match c.peek() {
        Tag::Word => Ok(c.take()),
        Tag::Bracketed => inside(c.take()).ok_or(ParseErr::Syntax),
        _ => Err(ParseErr::Syntax),
    }
}

/// A name, bare or in brackets.
pub(crate) fn name(alloc: Global, c: &mut Cursor<'_>) -> Result<Name, ParseErr>
    ensures { ParsesUnlessOom (spec.name c.old) result c.new }
{
    let text = name_text(c)?;
    Ok(Name::of_str(alloc, text)?)
}

/// The value of a literal's text.
fn literal_value(alloc: Global, text: &str) -> Result<Value, ParseErr>
    ensures value { ConvertsUnlessOom (literal_of text.now) result }
    ensures literal { IfOk result IsLiteral }
{
    match read_literal(alloc, text) {
        Ok(value) => {
            literals_are_read_back();
            Ok(value)
        }
        Err(LitErr::NotLiteral) => Err(ParseErr::Syntax),
        Err(LitErr::Memory) => Err(ParseErr::Memory),
    }
}

/// A number without a sign, a text, bytes or NULL.
#[tactic(auto, unfolding(spec_syntax::specs::Expr::literal))]
pub(crate) fn literal(alloc: Global, c: &mut Cursor<'_>) -> Result<Value, ParseErr>
    ensures value { ParsesUnlessOom (spec.literal c.old) result c.new }
    ensures literal { IfOk result IsLiteral }
{
    match c.peek() {
        Tag::Null | Tag::Number | Tag::Text | Tag::Bytes => literal_value(alloc, c.take()),
        _ => Err(ParseErr::Syntax),
    }
}

/// A literal or the name of a column.
#[tactic(auto, unfolding(spec_syntax::specs::Expr::leaf))]
pub(crate) fn leaf(alloc: Global, c: &mut Cursor<'_>) -> Result<Expr, ParseErr>
    ensures { ParsesUnlessOom (spec.leaf c.old) result c.new }
{
    c.spend()?;
    match c.peek() {
        Tag::Word | Tag::Bracketed => Ok(Expr::Col(name(alloc, c)?)),
        _ => Ok(Expr::Lit(literal(alloc, c)?)),
    }
}
