//! Writing the parts of statements.

ghost use Rattle.std.specs.Prelude.{◌≡◌, ◌∷◌, [], List, OnOk};
ghost use Rattle.sql_value.specs.Tree.{tree};
ghost use Rattle.spec_syntax.specs.Input.{Sym};
ghost use Rattle.spec_syntax.specs.Page.{write};
ghost use Rattle.spec_syntax.specs.Printed as part;
ghost use Rattle.spec_syntax.specs.PrintedStmt as spec;

use crate::page::Page;
use base_types::{Items, Memory, Name, first_of};
use spec_syntax::Tag;
use sql_types::Agg;
use sql_value::{ColumnDef, Expr, Op, SqlType, Value};

/// What is printed as tokens.
pub trait Print {
    ghost tokens: { Self → List Sym };

    fn print(&self, page: &mut Page) -> Result<(), Memory>
        ensures { OnOk result (page.new ≡ write page.old (tokens self.now)) };
}

/// Items, each with a comma before it.
#[tactic(auto, unfolding(spec_syntax::specs::Printed::rest_listed), using(crate::proofs::Pages::write_append))]
fn put_rest<T: Print>(page: &mut Page, items: &[T]) -> Result<(), Memory>
    ensures { OnOk result (page.new ≡ write page.old (part.rest_listed T.tokens items.now)) }
{
    let mut rest = items;
    while let Some((item, others)) = first_of(rest) {
        page.key(Tag::Comma)?;
        item.print(page)?;
        rest = others;
    }
    Ok(())
}

/// Items with commas between.
#[tactic(auto, unfolding(spec_syntax::specs::Printed::listed), using(crate::proofs::Pages::write_append))]
pub(crate) fn put_list<T: Print>(page: &mut Page, items: &[T]) -> Result<(), Memory>
    ensures { OnOk result (page.new ≡ write page.old (part.listed T.tokens items.now)) }
{
    let Some((first, rest)) = first_of(items) else {
        return Ok(());
    };
    first.print(page)?;
    put_rest(page, rest)
}

/// Items with commas between, in parentheses.
#[tactic(auto, using(crate::proofs::Pages::write_append))]
pub(crate) fn put_enclosed<T: Print>(page: &mut Page, items: &[T]) -> Result<(), Memory>
    ensures { OnOk result (page.new ≡ write page.old (part.enclosed (part.listed T.tokens items.now))) }
{
    page.key(Tag::Open)?;
    put_list(page, items)?;
    page.key(Tag::Close)
}

impl Print for Name {
    ghost tokens = { spec.one_name };

    fn print(&self, page: &mut Page) -> Result<(), Memory> {
        page.name(self)
    }
}

impl Print for Value {
    ghost tokens = { spec.literal };

    fn print(&self, page: &mut Page) -> Result<(), Memory> {
        page.literal(self)
    }
}

fn op_tag(op: Op) -> Tag
    ensures { result ≡ part.op_tag op }
{
    match op {
        Op::Add => Tag::Plus,
        Op::Sub => Tag::Minus,
        Op::Mul => Tag::Star,
        Op::Eq => Tag::Equal,
        Op::Ne => Tag::NotEqual,
        Op::Lt => Tag::Less,
        Op::Le => Tag::LessEqual,
        Op::Gt => Tag::Greater,
        Op::Ge => Tag::GreaterEqual,
        Op::And => Tag::And,
        Op::Or => Tag::Or,
    }
}

#[tactic(auto, using(crate::proofs::Pages::write_append))]
fn put_null(page: &mut Page, negated: bool) -> Result<(), Memory>
    ensures { OnOk result (page.new ≡ write page.old (part.null negated)) }
{
    page.key(Tag::Is)?;
    if negated {
        page.key(Tag::Not)?;
    }
    page.key(Tag::Null)
}

/// An expression, with parentheses round each operator's whole expression.
pub(crate) fn put_expr(page: &mut Page, e: &Expr) -> Result<(), Memory>
    ensures { OnOk result (page.new ≡ write page.old (part.expr (tree e.now))) }
{
    match e {
        Expr::Lit(value) => page.literal(value),
        Expr::Col(name) => page.name(name),
        Expr::Neg(a) => {
            page.key(Tag::Open)?;
            page.key(Tag::Minus)?;
            put_expr(page, a.get())?;
            page.key(Tag::Close)
        }
        Expr::Not(a) => {
            page.key(Tag::Open)?;
            page.key(Tag::Not)?;
            put_expr(page, a.get())?;
            page.key(Tag::Close)
        }
        Expr::IsNull { of, negated } => {
            page.key(Tag::Open)?;
            put_expr(page, of.get())?;
            put_null(page, *negated)?;
            page.key(Tag::Close)
        }
        Expr::Bin(op, a, b) => {
            page.key(Tag::Open)?;
            put_expr(page, a.get())?;
            page.key(op_tag(*op))?;
            put_expr(page, b.get())?;
            page.key(Tag::Close)
        }
    }
}

impl Print for Expr {
    ghost tokens = { λ e. part.expr (tree e) };

    fn print(&self, page: &mut Page) -> Result<(), Memory> {
        put_expr(page, self)
    }
}

impl Print for Agg {
    ghost tokens = { spec.agg };

    fn print(&self, page: &mut Page) -> Result<(), Memory> {
        match self {
            Agg::Count => {
                page.word("COUNT")?;
                page.key(Tag::Open)?;
                page.key(Tag::Star)?;
                page.key(Tag::Close)
            }
            Agg::Sum(name) => {
                page.word("SUM")?;
                page.key(Tag::Open)?;
                page.name(name)?;
                page.key(Tag::Close)
            }
        }
    }
}

/// A row of values.
impl Print for Items<Value> {
    ghost tokens = { spec.row };

    fn print(&self, page: &mut Page) -> Result<(), Memory> {
        put_enclosed(page, self.as_slice())
    }
}

/// What a SET gives a column.
impl Print for (Name, Expr) {
    ghost tokens = { spec.assignment };

    fn print(&self, page: &mut Page) -> Result<(), Memory> {
        page.name(&self.0)?;
        page.key(Tag::Equal)?;
        put_expr(page, &self.1)
    }
}

/// A column by which rows are sorted.
impl Print for (Name, bool) {
    ghost tokens = { spec.sort };

    fn print(&self, page: &mut Page) -> Result<(), Memory> {
        page.name(&self.0)?;
        page.key(if self.1 { Tag::Desc } else { Tag::Asc })
    }
}

#[tactic(auto, unfolding(spec_syntax::specs::PrintedStmt::sql_type))]
fn put_type(page: &mut Page, ty: SqlType) -> Result<(), Memory>
    ensures { OnOk result (page.new ≡ write page.old (spec.sql_type ty)) }
{
    match ty {
        SqlType::Bit => page.word("BIT"),
        SqlType::Int => page.word("INT"),
        SqlType::BigInt => page.word("BIGINT"),
        SqlType::Date => page.word("DATE"),
        SqlType::Decimal { p, s } => {
            page.word("DECIMAL")?;
            page.key(Tag::Open)?;
            page.digits(p)?;
            page.key(Tag::Comma)?;
            page.digits(s)?;
            page.key(Tag::Close)
        }
        SqlType::NVarChar { n } => {
            page.word("NVARCHAR")?;
            put_size(page, n)
        }
        SqlType::VarBinary { n } => {
            page.word("VARBINARY")?;
            put_size(page, n)
        }
    }
}

fn put_size(page: &mut Page, n: u32) -> Result<(), Memory>
    ensures { OnOk result (page.new ≡ write page.old (part.enclosed (part.digits n ∷ []))) }
{
    page.key(Tag::Open)?;
    page.digits(n)?;
    page.key(Tag::Close)
}

#[tactic(auto, unfolding(spec_syntax::specs::PrintedStmt::nullable))]
fn put_nullable(page: &mut Page, nullable: bool) -> Result<(), Memory>
    ensures { OnOk result (page.new ≡ write page.old (spec.nullable nullable)) }
{
    if !nullable {
        page.key(Tag::Not)?;
    }
    page.key(Tag::Null)
}

impl Print for ColumnDef {
    ghost tokens = { spec.column };

    #[tactic(auto, unfolding(spec_syntax::specs::PrintedStmt::column), using(crate::proofs::Pages::write_append))]
    fn print(&self, page: &mut Page) -> Result<(), Memory> {
        page.name(&self.name)?;
        put_type(page, self.ty)?;
        put_nullable(page, self.nullable)
    }
}
