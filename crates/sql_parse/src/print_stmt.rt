//! Writing statements: a function for each form.

ghost use Rattle.std.specs.Prelude.{◌≡◌, IfOk, OnOk};
ghost use Rattle.spec_syntax.specs.Page.{write};
ghost use Rattle.spec_syntax.specs.PrintedStmt as spec;
ghost use Rattle.spec_syntax.specs.PrintedStmt.{printed};

use crate::page::Page;
use crate::print_part::{Print, put_enclosed, put_expr, put_list};
use base_types::{Items, Memory, Name};
use spec_syntax::Tag;
use sql_types::{Alter, CreateIndex, CreateTable, RowStmt, Select, SelectList, Stmt};
use sql_value::{Expr, TableKind};
use std::alloc::Global;

/// `= ON`.
fn put_on(page: &mut Page) -> Result<(), Memory>
    ensures { OnOk result (page.new ≡ write page.old spec.on) }
{
    page.key(Tag::Equal)?;
    page.key(Tag::On)
}

fn put_history(page: &mut Page, history: &Option<Name>) -> Result<(), Memory>
    ensures { OnOk result (page.new ≡ write page.old (spec.history history.now)) }
{
    let Some(name) = history else {
        return Ok(());
    };
    page.key(Tag::Open)?;
    page.word("HISTORY_TABLE")?;
    page.key(Tag::Equal)?;
    page.name(name)?;
    page.key(Tag::Close)
}

fn put_view(page: &mut Page, view: &Name) -> Result<(), Memory>
    ensures { OnOk result (page.new ≡ write page.old (spec.view view.now)) }
{
    page.word("LEDGER_VIEW")?;
    page.key(Tag::Equal)?;
    page.name(view)
}

/// A view in parentheses.
fn put_own_view(page: &mut Page, view: &Option<Name>) -> Result<(), Memory>
    ensures { OnOk result (page.new ≡ write page.old (spec.own_view view.now)) }
{
    let Some(view) = view else {
        return Ok(());
    };
    page.key(Tag::Open)?;
    put_view(page, view)?;
    page.key(Tag::Close)
}

/// A view behind another choice.
fn put_more_view(page: &mut Page, view: &Option<Name>) -> Result<(), Memory>
    ensures { OnOk result (page.new ≡ write page.old (spec.more_view view.now)) }
{
    let Some(view) = view else {
        return Ok(());
    };
    page.key(Tag::Comma)?;
    put_view(page, view)
}

/// A table whose rows may change.
#[tactic(auto, using(crate::proofs::Pages::write_append))]
fn put_updatable(page: &mut Page, table: &CreateTable) -> Result<(), Memory>
    ensures { OnOk result (page.new ≡ write page.old (spec.updatable table.now.history table.now.view)) }
{
    page.word("SYSTEM_VERSIONING")?;
    put_on(page)?;
    put_history(page, &table.history)?;
    page.key(Tag::Comma)?;
    page.word("LEDGER")?;
    put_on(page)?;
    put_own_view(page, &table.view)
}

#[tactic(auto, unfolding(spec_syntax::specs::PrintedStmt::choices), using(crate::proofs::Pages::write_append))]
fn put_choices(page: &mut Page, view: &Option<Name>) -> Result<(), Memory>
    ensures { OnOk result (page.new ≡ write page.old (spec.choices view.now)) }
{
    page.word("APPEND_ONLY")?;
    put_on(page)?;
    put_more_view(page, view)
}

/// A table whose rows are only added.
#[tactic(auto, using(crate::proofs::Pages::write_append))]
fn put_append_only(page: &mut Page, table: &CreateTable) -> Result<(), Memory>
    ensures { OnOk result (page.new ≡ write page.old (spec.append_only table.now.view)) }
{
    page.word("LEDGER")?;
    put_on(page)?;
    page.key(Tag::Open)?;
    put_choices(page, &table.view)?;
    page.key(Tag::Close)
}

/// What a table says of the ledger.
#[tactic(auto, unfolding(spec_syntax::specs::PrintedStmt::ledger))]
fn put_ledger(page: &mut Page, table: &CreateTable) -> Result<(), Memory>
    ensures { OnOk result (page.new
        ≡ write page.old (spec.ledger table.now.kind table.now.history table.now.view)) }
{
    match table.kind {
        TableKind::Updatable => put_updatable(page, table),
        TableKind::AppendOnly => put_append_only(page, table),
    }
}

/// The columns and the primary key.
#[tactic(auto, using(crate::proofs::Pages::write_append))]
fn put_columns(page: &mut Page, table: &CreateTable) -> Result<(), Memory>
    ensures { OnOk result (page.new ≡ write page.old (spec.table_items table.now)) }
{
    put_list(page, table.columns.as_slice())?;
    page.key(Tag::Comma)?;
    page.key(Tag::Primary)?;
    page.key(Tag::Key)?;
    put_enclosed(page, table.key.as_slice())
}

#[tactic(auto, unfolding(spec_syntax::specs::PrintedStmt::create_table), using(crate::proofs::Pages::write_append))]
fn put_create_table(page: &mut Page, table: &CreateTable) -> Result<(), Memory>
    ensures { OnOk result (page.new ≡ write page.old (spec.create_table table.now)) }
{
    page.key(Tag::Create)?;
    page.key(Tag::Table)?;
    page.name(&table.name)?;
    page.key(Tag::Open)?;
    put_columns(page, table)?;
    page.key(Tag::Close)?;
    page.key(Tag::With)?;
    page.key(Tag::Open)?;
    put_ledger(page, table)?;
    page.key(Tag::Close)
}

#[tactic(auto, unfolding(spec_syntax::specs::PrintedStmt::create_index), using(crate::proofs::Pages::write_append))]
fn put_create_index(page: &mut Page, index: &CreateIndex) -> Result<(), Memory>
    ensures { OnOk result (page.new ≡ write page.old (spec.create_index index.now)) }
{
    page.key(Tag::Create)?;
    page.key(Tag::Index)?;
    page.name(&index.name)?;
    page.key(Tag::On)?;
    page.name(&index.table)?;
    put_enclosed(page, index.columns.as_slice())
}

#[tactic(auto, unfolding(spec_syntax::specs::PrintedStmt::alter_table), using(crate::proofs::Pages::write_append))]
fn put_alter_table(page: &mut Page, alter: &Alter) -> Result<(), Memory>
    ensures { OnOk result (page.new ≡ write page.old (spec.alter_table alter.now)) }
{
    page.key(Tag::Alter)?;
    page.key(Tag::Table)?;
    match alter {
        Alter::Add { table, column } => {
            page.name(table)?;
            page.key(Tag::Add)?;
            column.print(page)
        }
        Alter::DropColumn { table, column } => {
            page.name(table)?;
            page.key(Tag::Drop)?;
            page.key(Tag::Column)?;
            page.name(column)
        }
    }
}

#[tactic(auto, unfolding(spec_syntax::specs::PrintedStmt::drop_table))]
fn put_drop_table(page: &mut Page, table: &Name) -> Result<(), Memory>
    ensures { OnOk result (page.new ≡ write page.old (spec.drop_table table.now)) }
{
    page.key(Tag::Drop)?;
    page.key(Tag::Table)?;
    page.name(table)
}

/// WHERE and its condition, if there is one.
fn put_filter(page: &mut Page, cond: &Option<Expr>) -> Result<(), Memory>
    ensures { OnOk result (page.new ≡ write page.old (spec.filter cond.now)) }
{
    let Some(cond) = cond else {
        return Ok(());
    };
    page.key(Tag::Where)?;
    put_expr(page, cond)
}

/// The columns of an INSERT, where they are written.
fn put_names(page: &mut Page, columns: &Option<Items<Name>>) -> Result<(), Memory>
    ensures { OnOk result (page.new ≡ write page.old (spec.columns columns.now)) }
{
    match columns {
        Some(names) => put_enclosed(page, names.as_slice()),
        None => Ok(()),
    }
}

#[tactic(auto, unfolding(spec_syntax::specs::PrintedStmt::change), using(crate::proofs::Pages::write_append))]
fn put_change(page: &mut Page, change: &RowStmt) -> Result<(), Memory>
    ensures { OnOk result (page.new ≡ write page.old (spec.change change.now)) }
{
    match change {
        RowStmt::Insert {
            table,
            columns,
            rows,
        } => {
            page.key(Tag::Insert)?;
            page.key(Tag::Into)?;
            page.name(table)?;
            put_names(page, columns)?;
            page.key(Tag::Values)?;
            put_list(page, rows.as_slice())
        }
        RowStmt::Update { table, sets, cond } => {
            page.key(Tag::Update)?;
            page.name(table)?;
            page.key(Tag::Set)?;
            put_list(page, sets.as_slice())?;
            put_filter(page, cond)
        }
        RowStmt::Delete { table, cond } => {
            page.key(Tag::Delete)?;
            page.key(Tag::From)?;
            page.name(table)?;
            put_filter(page, cond)
        }
    }
}

fn put_what(page: &mut Page, what: &SelectList) -> Result<(), Memory>
    ensures { OnOk result (page.new ≡ write page.old (spec.what what.now)) }
{
    match what {
        SelectList::All => page.key(Tag::Star),
        SelectList::Columns(names) => put_list(page, names.as_slice()),
        SelectList::Aggs(all) => put_list(page, all.as_slice()),
    }
}

/// ORDER BY and its columns, if there are some.
fn put_order(page: &mut Page, order: &[(Name, bool)]) -> Result<(), Memory>
    ensures { OnOk result (page.new ≡ write page.old (spec.order order.now)) }
{
    if order.is_empty() {
        return Ok(());
    }
    page.key(Tag::Order)?;
    page.key(Tag::By)?;
    put_list(page, order)
}

#[tactic(auto, unfolding(spec_syntax::specs::PrintedStmt::select), using(crate::proofs::Pages::write_append))]
fn put_select(page: &mut Page, select: &Select) -> Result<(), Memory>
    ensures { OnOk result (page.new ≡ write page.old (spec.select select.now)) }
{
    page.key(Tag::Select)?;
    put_what(page, &select.what)?;
    page.key(Tag::From)?;
    page.name(&select.table)?;
    put_filter(page, &select.cond)?;
    put_order(page, select.order.as_slice())
}

#[tactic(auto, unfolding(spec_syntax::specs::PrintedStmt::rollback))]
fn put_rollback(page: &mut Page, savepoint: &Option<Name>) -> Result<(), Memory>
    ensures { OnOk result (page.new ≡ write page.old (spec.rollback savepoint.now)) }
{
    page.key(Tag::Rollback)?;
    page.key(Tag::Transaction)?;
    match savepoint {
        Some(name) => page.name(name),
        None => Ok(()),
    }
}

#[tactic(auto, unfolding(spec_syntax::specs::PrintedStmt::tokens))]
fn put_stmt(page: &mut Page, s: &Stmt) -> Result<(), Memory>
    ensures { OnOk result (page.new ≡ write page.old (spec.tokens s.now)) }
{
    match s {
        Stmt::Create(table) => put_create_table(page, table),
        Stmt::Index(index) => put_create_index(page, index),
        Stmt::Alter(alter) => put_alter_table(page, alter),
        Stmt::Drop(table) => put_drop_table(page, table),
        Stmt::Change(change) => put_change(page, change),
        Stmt::Select(select) => put_select(page, select),
        Stmt::Begin => {
            page.key(Tag::Begin)?;
            page.key(Tag::Transaction)
        }
        Stmt::Commit => {
            page.key(Tag::Commit)?;
            page.key(Tag::Transaction)
        }
        Stmt::Save(name) => {
            page.key(Tag::Save)?;
            page.key(Tag::Transaction)?;
            page.name(name)
        }
        Stmt::Rollback(savepoint) => put_rollback(page, savepoint),
        Stmt::Digest => {
            page.key(Tag::Execute)?;
            page.word("SP_GENERATE_DATABASE_LEDGER_DIGEST")
        }
        Stmt::Image => {
            page.key(Tag::Save)?;
            page.word("IMAGE")
        }
    }
}

/// The text of a statement: names in brackets, other words in capitals, one blank between two tokens but none
/// behind `(` and none before `)` and `,`, and parentheses round each operator's whole expression. Words that
/// change nothing are written, save `;`, `sys.`, NONCLUSTERED and CLUSTERED. It takes time linear in the text.
/// Its calls nest no deeper than the expressions.
#[tactic(auto, unfolding(spec_syntax::specs::PrintedStmt::printed, spec_syntax::specs::Page::spelled))]
pub fn print(alloc: Global, s: &Stmt) -> Result<Vec<u8>, Memory>
    ensures { IfOk result (λ text. text.items ≡ printed s.now) }
{
    let mut page = Page::new(alloc);
    put_stmt(&mut page, s)?;
    Ok(page.into_text())
}
