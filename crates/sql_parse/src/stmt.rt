//! Statements: a function for each rule.

ghost use Rattle.std.specs.Prelude.{◌≡◌};
ghost use Rattle.spec_syntax.specs.Input.{ParsesUnlessOom, ConvertsUnlessOom};
ghost use Rattle.spec_syntax.specs.Stmt as spec;

use crate::alter::{alter_table, drop_table};
use crate::cursor::Cursor;
use crate::name::name;
use crate::row::{delete, insert, update};
use crate::select::select;
use crate::table::{create_index, create_table};
use crate::word::call_word;
use spec_syntax::{CallName, ParseErr, Tag};
use sql_types::Stmt;
use std::alloc::Global;

#[tactic(auto, unfolding(spec_syntax::specs::Stmt::create))]
fn create(alloc: Global, c: &mut Cursor<'_>) -> Result<Stmt, ParseErr>
    ensures { ParsesUnlessOom (spec.create c.old) result c.new }
{
    match c.peek() {
        Tag::Table => {
            c.take();
            Ok(Stmt::Create(create_table(alloc, c)?))
        }
        Tag::Nonclustered => {
            c.take();
            c.expect(Tag::Index)?;
            Ok(Stmt::Index(create_index(alloc, c)?))
        }
        Tag::Index => {
            c.take();
            Ok(Stmt::Index(create_index(alloc, c)?))
        }
        _ => Err(ParseErr::Syntax),
    }
}

/// Whether TRAN or TRANSACTION is written.
#[tactic(auto, unfolding(spec_syntax::specs::Stmt::tran_may))]
fn tran_may(c: &mut Cursor<'_>) -> Result<bool, ParseErr>
    ensures { ParsesUnlessOom (spec.tran_may c.old) result c.new }
{
    if c.eat(Tag::Tran) {
        return Ok(true);
    }
    Ok(c.eat(Tag::Transaction))
}

#[tactic(auto, unfolding(spec_syntax::specs::Stmt::begin))]
fn begin(c: &mut Cursor<'_>) -> Result<Stmt, ParseErr>
    ensures { ParsesUnlessOom (spec.begin c.old) result c.new }
{
    if tran_may(c)? {
        Ok(Stmt::Begin)
    } else {
        Err(ParseErr::Syntax)
    }
}

#[tactic(auto, unfolding(spec_syntax::specs::Stmt::commit))]
fn commit(c: &mut Cursor<'_>) -> Result<Stmt, ParseErr>
    ensures { ParsesUnlessOom (spec.commit c.old) result c.new }
{
    tran_may(c)?;
    Ok(Stmt::Commit)
}

#[tactic(auto, unfolding(spec_syntax::specs::Stmt::save))]
fn save(alloc: Global, c: &mut Cursor<'_>) -> Result<Stmt, ParseErr>
    ensures { ParsesUnlessOom (spec.save c.old) result c.new }
{
    if tran_may(c)? {
        return Ok(Stmt::Save(name(alloc, c)?));
    }
    match call_word(c)? {
        CallName::Image => Ok(Stmt::Image),
        _ => Err(ParseErr::Syntax),
    }
}

#[tactic(auto, unfolding(spec_syntax::specs::Stmt::rollback))]
fn rollback(alloc: Global, c: &mut Cursor<'_>) -> Result<Stmt, ParseErr>
    ensures { ParsesUnlessOom (spec.rollback c.old) result c.new }
{
    if !tran_may(c)? {
        return Ok(Stmt::Rollback(None));
    }
    match c.peek() {
        Tag::Word | Tag::Bracketed => Ok(Stmt::Rollback(Some(name(alloc, c)?))),
        _ => Ok(Stmt::Rollback(None)),
    }
}

fn digest_of(word: CallName) -> Result<Stmt, ParseErr>
    ensures { ConvertsUnlessOom (spec.digest_of word) result }
{
    match word {
        CallName::Digest => Ok(Stmt::Digest),
        _ => Err(ParseErr::Syntax),
    }
}

#[tactic(auto, unfolding(spec_syntax::specs::Stmt::execute))]
fn execute(c: &mut Cursor<'_>) -> Result<Stmt, ParseErr>
    ensures { ParsesUnlessOom (spec.execute c.old) result c.new }
{
    match call_word(c)? {
        CallName::Sys => {
            c.expect(Tag::Dot)?;
            digest_of(call_word(c)?)
        }
        word => digest_of(word),
    }
}

#[tactic(auto, unfolding(spec_syntax::specs::Stmt::body))]
fn body(alloc: Global, c: &mut Cursor<'_>) -> Result<Stmt, ParseErr>
    ensures { ParsesUnlessOom (spec.body c.old) result c.new }
{
    match c.peek() {
        Tag::Create => {
            c.take();
            create(alloc, c)
        }
        Tag::Alter => {
            c.take();
            Ok(Stmt::Alter(alter_table(alloc, c)?))
        }
        Tag::Drop => {
            c.take();
            Ok(Stmt::Drop(drop_table(alloc, c)?))
        }
        Tag::Insert => {
            c.take();
            Ok(Stmt::Change(insert(alloc, c)?))
        }
        Tag::Update => {
            c.take();
            Ok(Stmt::Change(update(alloc, c)?))
        }
        Tag::Delete => {
            c.take();
            Ok(Stmt::Change(delete(alloc, c)?))
        }
        Tag::Select => {
            c.take();
            Ok(Stmt::Select(select(alloc, c)?))
        }
        Tag::Begin => {
            c.take();
            begin(c)
        }
        Tag::Commit => {
            c.take();
            commit(c)
        }
        Tag::Save => {
            c.take();
            save(alloc, c)
        }
        Tag::Rollback => {
            c.take();
            rollback(alloc, c)
        }
        Tag::Exec | Tag::Execute => {
            c.take();
            execute(c)
        }
        _ => Err(ParseErr::Syntax),
    }
}

/// A statement, and nothing behind it.
#[tactic(auto, unfolding(spec_syntax::specs::Stmt::statement))]
pub(crate) fn statement(alloc: Global, c: &mut Cursor<'_>) -> Result<Stmt, ParseErr>
    ensures { ParsesUnlessOom (spec.statement c.old) result c.new }
{
    let found = body(alloc, c)?;
    c.eat(Tag::Semi);
    if c.tokens_left() == 0 {
        Ok(found)
    } else {
        // that each part is let go is then proved once for the type
        drop(found);
        Err(ParseErr::Syntax)
    }
}
