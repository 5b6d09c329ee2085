//! Expressions: a function for each rule.

ghost use Rattle.std.specs.Prelude.{◌≡◌, ◌≤◌, IfOk};
ghost use Rattle.sql_value.specs.declared.expr.Expr.TheVariants as expr;
ghost use Rattle.spec_syntax.specs.Input.{ParsesUnlessOom};
ghost use Rattle.spec_syntax.specs.Expr as spec;

use crate::cursor::Cursor;
use crate::name::leaf;
use base_types::{Boxed, Memory};
use spec_syntax::{Level, ParseErr, Tag};
use sql_value::{Expr, Op};
use std::alloc::Global;

/// How deep parentheses may nest.
pub const MAX_NESTING: u16 = 256;

fn operator(level: Level, tag: Tag) -> Option<Op>
    ensures { result ≡ spec.operator level tag }
{
    match (level, tag) {
        (Level::Or, Tag::Or) => Some(Op::Or),
        (Level::And, Tag::And) => Some(Op::And),
        (Level::Sum, Tag::Plus) => Some(Op::Add),
        (Level::Sum, Tag::Minus) => Some(Op::Sub),
        (Level::Product, Tag::Star) => Some(Op::Mul),
        _ => None,
    }
}

fn comparison(tag: Tag) -> Option<Op>
    ensures { result ≡ spec.comparison tag }
{
    match tag {
        Tag::Equal => Some(Op::Eq),
        Tag::NotEqual => Some(Op::Ne),
        Tag::Less => Some(Op::Lt),
        Tag::LessEqual => Some(Op::Le),
        Tag::Greater => Some(Op::Gt),
        Tag::GreaterEqual => Some(Op::Ge),
        _ => None,
    }
}

fn binary(alloc: Global, op: Op, a: Expr, b: Expr) -> Result<Expr, Memory>
    ensures { IfOk result (λ e. e ≡ expr.Bin op a b) }
{
    Ok(Expr::Bin(op, Boxed::new(alloc, a)?, Boxed::new(alloc, b)?))
}

fn is_null(alloc: Global, a: Expr, negated: bool) -> Result<Expr, Memory>
    ensures { IfOk result (λ e. e ≡ expr.IsNull a negated) }
{
    Ok(Expr::IsNull {
        of: Boxed::new(alloc, a)?,
        negated,
    })
}

fn negation(alloc: Global, a: Expr) -> Result<Expr, Memory>
    ensures { IfOk result (λ e. e ≡ expr.Neg a) }
{
    Ok(Expr::Neg(Boxed::new(alloc, a)?))
}

fn complement(alloc: Global, a: Expr) -> Result<Expr, Memory>
    ensures { IfOk result (λ e. e ≡ expr.Not a) }
{
    Ok(Expr::Not(Boxed::new(alloc, a)?))
}

#[tactic(auto, unfolding(spec_syntax::specs::Expr::prim, spec_syntax::specs::Expr::expr, spec_syntax::specs::Expr::level))]
#[cycle(rules)]
fn prim(alloc: Global, c: &mut Cursor<'_>, depth: u16) -> Result<Expr, ParseErr>
    ensures { ParsesUnlessOom (spec.prim (spec.expr depth) c.old) result c.new }
{
    if !c.eat(Tag::Open) {
        return leaf(alloc, c);
    }
    if depth == 0 {
        return Err(ParseErr::Syntax);
    }
    let inner = grouped(alloc, c, depth - 1, Level::Or)?;
    c.expect(Tag::Close)?;
    Ok(inner)
}

/// The expression under so many signs.
fn negations(alloc: Global, count: u16, mut e: Expr) -> Result<Expr, Memory>
    ensures { IfOk result (λ r. r ≡ spec.times count expr.Neg e) }
{
    for _turn in 0..count {
        e = negation(alloc, e)?;
    }
    Ok(e)
}

fn complements(alloc: Global, count: u16, mut e: Expr) -> Result<Expr, Memory>
    ensures { IfOk result (λ r. r ≡ spec.times count expr.Not e) }
{
    for _turn in 0..count {
        e = complement(alloc, e)?;
    }
    Ok(e)
}

#[tactic(auto, unfolding(spec_syntax::specs::Expr::unary))]
#[cycle(rules)]
fn unary(alloc: Global, c: &mut Cursor<'_>, depth: u16) -> Result<Expr, ParseErr>
    ensures { ParsesUnlessOom (spec.unary (spec.expr depth) c.old) result c.new }
{
    let signs = c.repeated(Tag::Minus)?;
    let inner = prim(alloc, c, depth)?;
    Ok(negations(alloc, signs, inner)?)
}

#[tactic(auto, unfolding(spec_syntax::specs::Expr::operand, spec_syntax::specs::Expr::level))]
#[cycle(rules)]
fn operand(alloc: Global, c: &mut Cursor<'_>, depth: u16, level: Level) -> Result<Expr, ParseErr>
    ensures { ParsesUnlessOom (spec.operand (spec.expr depth) level c.old) result c.new }
{
    match level {
        Level::Or => grouped(alloc, c, depth, Level::And),
        Level::And => not(alloc, c, depth),
        Level::Sum => grouped(alloc, c, depth, Level::Product),
        Level::Product => unary(alloc, c, depth),
    }
}

#[tactic(auto, unfolding(spec_syntax::specs::Expr::more))]
#[cycle(rules)]
fn grouped(alloc: Global, c: &mut Cursor<'_>, depth: u16, level: Level) -> Result<Expr, ParseErr>
    ensures { ParsesUnlessOom (spec.level (spec.expr depth) level c.old) result c.new }
{
    let mut left = operand(alloc, c, depth, level)?;
    for _turn in 0..u32::from(c.left()) + 1 {
        let Some(op) = operator(level, c.peek()) else {
            return Ok(left);
        };
        c.take();
        c.spend()?;
        let right = operand(alloc, c, depth, level)?;
        left = binary(alloc, op, left, right)?;
    }
    // that each part is let go is then proved once for the type
    drop(left);
    Err(ParseErr::Syntax)
}

/// What may follow the first side of a comparison.
#[tactic(auto, unfolding(spec_syntax::specs::Expr::cmp, spec_syntax::specs::Expr::level))]
#[cycle(rules)]
fn cmp(alloc: Global, c: &mut Cursor<'_>, depth: u16) -> Result<Expr, ParseErr>
    ensures { ParsesUnlessOom (spec.cmp (spec.expr depth) c.old) result c.new }
{
    let left = grouped(alloc, c, depth, Level::Sum)?;
    if let Some(op) = comparison(c.peek()) {
        c.take();
        c.spend()?;
        let right = grouped(alloc, c, depth, Level::Sum)?;
        return Ok(binary(alloc, op, left, right)?);
    }
    if !c.eat(Tag::Is) {
        return Ok(left);
    }
    c.spend()?;
    let negated = c.eat(Tag::Not);
    c.expect(Tag::Null)?;
    Ok(is_null(alloc, left, negated)?)
}

#[tactic(auto, unfolding(spec_syntax::specs::Expr::not))]
#[cycle(rules)]
fn not(alloc: Global, c: &mut Cursor<'_>, depth: u16) -> Result<Expr, ParseErr>
    ensures { ParsesUnlessOom (spec.not (spec.expr depth) c.old) result c.new }
{
    let nots = c.repeated(Tag::Not)?;
    let inner = cmp(alloc, c, depth)?;
    Ok(complements(alloc, nots, inner)?)
}

/// An expression.
#[tactic(auto, unfolding(spec_syntax::specs::Expr::whole, spec_syntax::specs::Expr::level))]
pub(crate) fn whole(alloc: Global, c: &mut Cursor<'_>) -> Result<Expr, ParseErr>
    ensures { ParsesUnlessOom (spec.whole c.old) result c.new }
{
    c.begin();
    grouped(alloc, c, MAX_NESTING, Level::Or)
}
