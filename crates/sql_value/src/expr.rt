//! The tree of an expression, and the classes by which it is checked.

use crate::Value;
use base_types::{Boxed, Name};

/// An operator of two operands.
#[derive(Clone, Copy, Debug, PartialEq, Eq)]
pub enum Op {
    Add,
    Sub,
    Mul,
    Eq,
    Ne,
    Lt,
    Le,
    Gt,
    Ge,
    And,
    Or,
}

/// An expression.
#[derive(Debug, Drop)]
pub enum Expr {
    Lit(Value),
    Col(Name),
    Neg(Boxed<Expr>),
    Not(Boxed<Expr>),
    /// `IS NULL`, or where it is negated `IS NOT NULL`.
    IsNull { of: Boxed<Expr>, negated: bool },
    Bin(Op, Boxed<Expr>, Boxed<Expr>),
}

/// What kind of value an expression gives, as far as its columns and literals tell.
#[derive(Clone, Copy, Debug, PartialEq, Eq)]
pub enum Class {
    /// A number without a point.
    Whole,
    /// A number with so many digits after the point.
    Dec(u8),
    Text,
    Bytes,
    Date,
    Null,
    /// True, false or unknown.
    Truth,
}
