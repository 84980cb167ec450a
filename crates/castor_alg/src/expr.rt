//! Expressions.

use castor_val::Value;
use sqlite_items::Boxed;

/// A binary operator. Its place in this list, from 0, is its number in reader code.
#[derive(Clone, Copy, Debug, PartialEq, Eq)]
pub enum Op {
    Or,
    And,
    Eq,
    Ne,
    Lt,
    Le,
    Gt,
    Ge,
    Add,
    Sub,
    Mul,
    Div,
    Rem,
}

/// An expression over a row, the rows of the scopes in force, and the parameters.
#[derive(Drop)]
pub enum Expr {
    /// A column of the row, from 0.
    Col(u32),
    /// A scope, and a column of its row, from 0.
    Scope(u32, u32),
    /// A parameter, from 0.
    Param(u32),
    Lit(Value),
    Bin(Op, Boxed<Expr>, Boxed<Expr>),
    Not(Boxed<Expr>),
    /// The condition, what is taken where it is true, and what is taken where it is false.
    If(Boxed<Expr>, Boxed<Expr>, Boxed<Expr>),
}
