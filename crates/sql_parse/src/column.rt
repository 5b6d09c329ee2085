//! Columns and keys of a CREATE TABLE: a function for each rule.

ghost use Rattle.std.specs.Prelude.{◌≡◌, ◌+◌, ◌*◌, ◌^◌, ◌≤◌, length};
ghost use Rattle.sql_value.specs.Literal.{digits_after};
ghost use Rattle.spec_syntax.specs.Input.{ParsesUnlessOom, ConvertsUnlessOom};
ghost use Rattle.spec_syntax.specs.Table as spec;

use crate::cursor::Cursor;
use crate::name::name;
use crate::row::name_list;
use crate::word::type_word;
use base_types::{Items, Name};
use spec_syntax::{Column, Draft, Item, ParseErr, Tag, TypeName};
use sql_value::SqlType;
use std::alloc::Global;

/// The most digits that stand in a type.
const MOST_DIGITS: usize = 9;

/// The number that digits write, at most nine of them.
#[tactic(auto, unfolding(spec_syntax::specs::Table::digits_of))]
fn digits_of(text: &[u8]) -> Option<u32>
    ensures { result ≡ spec.digits_of text.now }
{
    if text.len() > MOST_DIGITS {
        return None;
    }
    number_of(text)
}

fn number_of(text: &[u8]) -> Option<u32>
    requires { length text.now ≤ 9 }
    ensures { result ≡ digits_after 0 text.now }
{
    let mut number: u32 = 0;
    for &digit in text {
        if !digit.is_ascii_digit() {
            return None;
        }
        number = number * 10 + u32::from(digit - b'0');
    }
    Some(number)
}

#[tactic(auto, unfolding(spec_syntax::specs::Table::digits))]
fn digits(c: &mut Cursor<'_>) -> Result<u32, ParseErr>
    ensures { ParsesUnlessOom (spec.digits c.old) result c.new }
{
    match c.peek() {
        Tag::Number => digits_of(c.take().as_bytes()).ok_or(ParseErr::Syntax),
        _ => Err(ParseErr::Syntax),
    }
}

#[tactic(auto, unfolding(spec_syntax::specs::Table::size))]
fn size(c: &mut Cursor<'_>) -> Result<u32, ParseErr>
    ensures { ParsesUnlessOom (spec.size c.old) result c.new }
{
    c.expect(Tag::Open)?;
    let found = digits(c)?;
    c.expect(Tag::Close)?;
    Ok(found)
}

#[tactic(auto, unfolding(spec_syntax::specs::Table::scale))]
fn scale(c: &mut Cursor<'_>) -> Result<u32, ParseErr>
    ensures { ParsesUnlessOom (spec.scale c.old) result c.new }
{
    if c.eat(Tag::Comma) { digits(c) } else { Ok(0) }
}

#[tactic(auto, unfolding(spec_syntax::specs::Table::decimal))]
fn decimal(c: &mut Cursor<'_>) -> Result<SqlType, ParseErr>
    ensures { ParsesUnlessOom (spec.decimal c.old) result c.new }
{
    if !c.eat(Tag::Open) {
        return Ok(SqlType::Decimal { p: 18, s: 0 });
    }
    let p = digits(c)?;
    let s = scale(c)?;
    c.expect(Tag::Close)?;
    Ok(SqlType::Decimal { p, s })
}

#[tactic(auto, unfolding(spec_syntax::specs::Table::sql_type))]
pub(crate) fn sql_type(c: &mut Cursor<'_>) -> Result<SqlType, ParseErr>
    ensures { ParsesUnlessOom (spec.sql_type c.old) result c.new }
{
    match type_word(c)? {
        TypeName::Bit => Ok(SqlType::Bit),
        TypeName::Int => Ok(SqlType::Int),
        TypeName::BigInt => Ok(SqlType::BigInt),
        TypeName::Date => Ok(SqlType::Date),
        TypeName::Decimal => decimal(c),
        TypeName::NVarChar => Ok(SqlType::NVarChar { n: size(c)? }),
        TypeName::VarBinary => Ok(SqlType::VarBinary { n: size(c)? }),
    }
}

/// Whether NULL or NOT NULL is written.
#[tactic(auto, unfolding(spec_syntax::specs::Table::nullable))]
fn nullable(c: &mut Cursor<'_>) -> Result<Option<bool>, ParseErr>
    ensures { ParsesUnlessOom (spec.nullable c.old) result c.new }
{
    match c.peek() {
        Tag::Null => {
            c.take();
            Ok(Some(true))
        }
        Tag::Not => {
            c.take();
            c.expect(Tag::Null)?;
            Ok(Some(false))
        }
        _ => Ok(None),
    }
}

/// Whether PRIMARY KEY is written.
#[tactic(auto, unfolding(spec_syntax::specs::Table::is_key))]
fn is_key(c: &mut Cursor<'_>) -> Result<bool, ParseErr>
    ensures { ParsesUnlessOom (spec.is_key c.old) result c.new }
{
    if !c.eat(Tag::Primary) {
        return Ok(false);
    }
    c.expect(Tag::Key)?;
    c.eat(Tag::Clustered);
    Ok(true)
}

#[tactic(auto, unfolding(spec_syntax::specs::Table::column))]
fn one_column(alloc: Global, c: &mut Cursor<'_>) -> Result<Item, ParseErr>
    ensures { ParsesUnlessOom (spec.column c.old) result c.new }
{
    let name = name(alloc, c)?;
    let ty = sql_type(c)?;
    let nullable = nullable(c)?;
    let is_key = is_key(c)?;
    let column = Column { name, ty, nullable };
    Ok(Item::Column { column, is_key })
}

/// What stands behind PRIMARY.
#[tactic(auto, unfolding(spec_syntax::specs::Table::key))]
fn key(alloc: Global, c: &mut Cursor<'_>) -> Result<Item, ParseErr>
    ensures { ParsesUnlessOom (spec.key c.old) result c.new }
{
    c.expect(Tag::Key)?;
    c.eat(Tag::Clustered);
    Ok(Item::Key(name_list(alloc, c)?))
}

#[tactic(auto, unfolding(spec_syntax::specs::Table::one_item))]
fn one_item(alloc: Global, c: &mut Cursor<'_>) -> Result<Item, ParseErr>
    ensures { ParsesUnlessOom (spec.one_item c.old) result c.new }
{
    match c.peek() {
        Tag::Primary => {
            c.take();
            key(alloc, c)
        }
        _ => one_column(alloc, c),
    }
}

/// The columns with this primary key, which must be the first.
fn with_key(
    columns: Items<Column>,
    old: Option<Items<Name>>,
    names: Items<Name>,
) -> Result<Draft, ParseErr>
    ensures { ConvertsUnlessOom (spec.with_key columns old names) result }
{
    match old {
        Some(_) => Err(ParseErr::Syntax),
        None => Ok(Draft {
            columns,
            key: Some(names),
        }),
    }
}

/// The columns and the key so far with this item.
fn with_item(alloc: Global, draft: Draft, item: Item) -> Result<Draft, ParseErr>
    ensures { ConvertsUnlessOom (spec.with_item draft item) result }
{
    let Draft { mut columns, key } = draft;
    match item {
        Item::Column {
            column,
            is_key: false,
        } => {
            columns.push(column)?;
            Ok(Draft { columns, key })
        }
        Item::Column {
            column,
            is_key: true,
        } => {
            let mut names = Items::new(alloc);
            names.push(column.name.copy()?)?;
            columns.push(column)?;
            with_key(columns, key, names)
        }
        Item::Key(names) => with_key(columns, key, names),
    }
}

#[tactic(auto, unfolding(spec_syntax::specs::Table::item_step))]
fn item_step(alloc: Global, c: &mut Cursor<'_>, draft: Draft) -> Result<Draft, ParseErr>
    ensures { ParsesUnlessOom (spec.item_step draft c.old) result c.new }
{
    let found = one_item(alloc, c)?;
    with_item(alloc, draft, found)
}

/// The columns and the key, behind those that were found.
#[tactic(auto, unfolding(spec_syntax::specs::Input::fold, spec_syntax::specs::Input::fold_from))]
pub(crate) fn items(alloc: Global, c: &mut Cursor<'_>, mut found: Draft) -> Result<Draft, ParseErr>
    ensures { ParsesUnlessOom (spec.items found c.old) result c.new }
{
    for _turn in 0..c.tokens_left() {
        found = item_step(alloc, c, found)?;
        if !c.eat(Tag::Comma) {
            return Ok(found);
        }
    }
    Err(ParseErr::Syntax)
}

/// No columns, and no key.
pub(crate) fn no_items(alloc: Global) -> Draft
    ensures { result ≡ spec.no_items }
{
    Draft {
        columns: Items::new(alloc),
        key: None,
    }
}
