//! ALTER TABLE and DROP TABLE: a function for each rule.

ghost use Rattle.spec_syntax.specs.Input.{ParsesUnlessOom};
ghost use Rattle.spec_syntax.specs.Table as spec;

use crate::column::sql_type;
use crate::cursor::Cursor;
use crate::name::name;
use base_types::Name;
use spec_syntax::{ParseErr, Tag};
use sql_types::Alter;
use sql_value::ColumnDef;
use std::alloc::Global;

/// What stands behind ADD.
#[tactic(auto, unfolding(spec_syntax::specs::Table::add))]
fn add(alloc: Global, c: &mut Cursor<'_>, table: Name) -> Result<Alter, ParseErr>
    ensures { ParsesUnlessOom (spec.add table c.old) result c.new }
{
    let name = name(alloc, c)?;
    let ty = sql_type(c)?;
    c.eat(Tag::Null);
    let column = ColumnDef {
        name,
        ty,
        nullable: true,
        key_position: 0,
    };
    Ok(Alter::Add { table, column })
}

/// What stands behind DROP of an ALTER TABLE.
#[tactic(auto, unfolding(spec_syntax::specs::Table::drop_column))]
fn drop_column(alloc: Global, c: &mut Cursor<'_>, table: Name) -> Result<Alter, ParseErr>
    ensures { ParsesUnlessOom (spec.drop_column table c.old) result c.new }
{
    c.expect(Tag::Column)?;
    let column = name(alloc, c)?;
    Ok(Alter::DropColumn { table, column })
}

/// What stands behind ALTER.
#[tactic(auto, unfolding(spec_syntax::specs::Table::alter_table))]
pub(crate) fn alter_table(alloc: Global, c: &mut Cursor<'_>) -> Result<Alter, ParseErr>
    ensures { ParsesUnlessOom (spec.alter_table c.old) result c.new }
{
    c.expect(Tag::Table)?;
    let table = name(alloc, c)?;
    match c.peek() {
        Tag::Add => {
            c.take();
            add(alloc, c, table)
        }
        Tag::Drop => {
            c.take();
            drop_column(alloc, c, table)
        }
        _ => Err(ParseErr::Syntax),
    }
}

/// What stands behind DROP.
#[tactic(auto, unfolding(spec_syntax::specs::Table::drop_table))]
pub(crate) fn drop_table(alloc: Global, c: &mut Cursor<'_>) -> Result<Name, ParseErr>
    ensures { ParsesUnlessOom (spec.drop_table c.old) result c.new }
{
    c.expect(Tag::Table)?;
    name(alloc, c)
}
