//! The value of an expression.

ghost use Rattle.std.specs.Prelude.{◌≡◌, Ok, map, ◌+ℤ◌, ◌-ℤ◌, ◌*ℤ◌};
ghost use Rattle.castor_val.specs.Values.{column, value_of};
ghost use Rattle.castor_alg.specs.Answers.{answer_of};
ghost use Rattle.castor_alg.specs.Expression.{apply, compared, expr_value, negated, on_bools, on_ints, quotient, remainder, whole};
ghost use Rattle.castor_alg.specs.Operators.{computes, connects, holds};
ghost use Rattle.castor_alg.specs.Scopes.{scopes_of};

use crate::env::Env;
use crate::expr::{Expr, Op};
use castor_val::{Cell, Faults, compare};
use std::cmp::Ordering;

/// What a missing column, scope or parameter and an ill-typed operation give.
const FALSE: Cell<'static> = Cell::Bool(false);

/// The value of an expression over a row, or the faults of all that it evaluates.
///
/// A binary operator evaluates both sides, `and` and `or` too, and where one faults the faults of
/// both are joined. `if` evaluates its condition and then the chosen side alone. A missing column,
/// scope or parameter and an ill-typed operation give `false`, so each expression has an answer over
/// each row. Linear in the nodes that are evaluated, the scopes in force for each node that reads one,
/// and the bytes of the texts that are compared. Takes no memory.
pub fn value<'e, 'a>(
    e: &'a Expr,
    row: &[Cell<'a>],
    env: &Env<'e, 'a>,
    params: &[Cell<'a>],
) -> Result<Cell<'a>, Faults>
    ensures { answer_of result ≡ expr_value e.now (map value_of row.now) (scopes_of env.now) (map value_of params.now) }
{
    match e {
        Expr::Col(at) => Ok(column_at(row, *at)),
        Expr::Scope(scope, at) => Ok(scope_column_at(env, *scope, *at)),
        Expr::Param(at) => Ok(column_at(params, *at)),
        Expr::Lit(literal) => Ok(literal.cell()),
        Expr::Bin(op, a, b) => {
            let left = value(a.get(), row, env, params);
            let right = value(b.get(), row, env, params);
            match left {
                Ok(x) => match right {
                    Ok(y) => apply_op(*op, x, y),
                    Err(faults) => Err(faults),
                },
                Err(faults) => match right {
                    Ok(_) => Err(faults),
                    Err(more) => Err(faults.union(more)),
                },
            }
        }
        Expr::Not(a) => match value(a.get(), row, env, params) {
            Ok(x) => Ok(negate(x)),
            Err(faults) => Err(faults),
        },
        Expr::If(condition, a, b) => match value(condition.get(), row, env, params) {
            Ok(Cell::Bool(true)) => value(a.get(), row, env, params),
            Ok(Cell::Bool(false)) => value(b.get(), row, env, params),
            Ok(_) => Ok(FALSE),
            Err(faults) => Err(faults),
        },
    }
}

/// The cell of a row in a column, from 0, and false where the row has no such column.
pub fn column_at<'a>(row: &[Cell<'a>], at: u32) -> Cell<'a>
    ensures { value_of result ≡ column (map value_of row.now) at }
{
    match row.get(at as usize) {
        Some(cell) => *cell,
        None => FALSE,
    }
}

/// The cell in a column of the row that a scope is bound to, and false where there is none. Linear in
/// the bindings inside the one that holds.
pub fn scope_column_at<'e, 'a>(env: &Env<'e, 'a>, scope: u32, at: u32) -> Cell<'a>
    ensures { value_of result ≡ column (scopes_of env.now scope) at }
{
    match env {
        Env::Empty => FALSE,
        Env::Bind(bound, row, outer) => {
            if *bound == scope {
                column_at(row, at)
            } else {
                scope_column_at(outer, scope, at)
            }
        }
    }
}

/// A binary operator on the values of its sides.
pub fn apply_op<'a>(op: Op, a: Cell<'a>, b: Cell<'a>) -> Result<Cell<'a>, Faults>
    ensures { answer_of result ≡ apply op (value_of a.entry) (value_of b.entry) }
{
    match op {
        Op::Or => connect(Op::Or, a, b),
        Op::And => connect(Op::And, a, b),
        Op::Eq => relate(Op::Eq, a, b),
        Op::Ne => relate(Op::Ne, a, b),
        Op::Lt => relate(Op::Lt, a, b),
        Op::Le => relate(Op::Le, a, b),
        Op::Gt => relate(Op::Gt, a, b),
        Op::Ge => relate(Op::Ge, a, b),
        Op::Add => calculate(Op::Add, a, b),
        Op::Sub => calculate(Op::Sub, a, b),
        Op::Mul => calculate(Op::Mul, a, b),
        Op::Div => calculate(Op::Div, a, b),
        Op::Rem => calculate(Op::Rem, a, b),
    }
}

fn negate<'a>(x: Cell<'a>) -> Cell<'a>
    ensures { Ok (value_of result) ≡ negated (value_of x.entry) }
{
    match x {
        Cell::Bool(truth) => Cell::Bool(!truth),
        _ => FALSE,
    }
}

fn connect<'a>(op: Op, a: Cell<'a>, b: Cell<'a>) -> Result<Cell<'a>, Faults>
    ensures { answer_of result ≡ on_bools (connects op) (value_of a.entry) (value_of b.entry) }
{
    match (a, b) {
        (Cell::Bool(x), Cell::Bool(y)) => Ok(Cell::Bool(connected(op, x, y))),
        _ => Ok(FALSE),
    }
}

fn connected(op: Op, x: bool, y: bool) -> bool
    ensures { result ≡ connects op x y }
{
    match op {
        Op::Or => x || y,
        Op::And => x && y,
        _ => false,
    }
}

fn relate<'a>(op: Op, a: Cell<'a>, b: Cell<'a>) -> Result<Cell<'a>, Faults>
    ensures { answer_of result ≡ compared (holds op) (value_of a.entry) (value_of b.entry) }
{
    match (a, b) {
        (Cell::Int(_), Cell::Int(_))
        | (Cell::Bool(_), Cell::Bool(_))
        | (Cell::Text(_), Cell::Text(_)) => Ok(Cell::Bool(is_in_order(op, compare(a, b)))),
        _ => Ok(FALSE),
    }
}

fn is_in_order(op: Op, order: Ordering) -> bool
    ensures { result ≡ holds op order }
{
    match op {
        Op::Eq => order.is_eq(),
        Op::Ne => order.is_ne(),
        Op::Lt => order.is_lt(),
        Op::Le => order.is_le(),
        Op::Gt => order.is_gt(),
        Op::Ge => order.is_ge(),
        _ => false,
    }
}

fn calculate<'a>(op: Op, a: Cell<'a>, b: Cell<'a>) -> Result<Cell<'a>, Faults>
    ensures { answer_of result ≡ on_ints (computes op) (value_of a.entry) (value_of b.entry) }
{
    match (a, b) {
        (Cell::Int(x), Cell::Int(y)) => compute(op, x, y),
        _ => Ok(FALSE),
    }
}

fn compute<'a>(op: Op, a: i64, b: i64) -> Result<Cell<'a>, Faults>
    ensures { answer_of result ≡ computes op a b }
{
    match op {
        Op::Add => add(a, b),
        Op::Sub => subtract(a, b),
        Op::Mul => multiply(a, b),
        Op::Div => divide(a, b),
        Op::Rem => remainder(a, b),
        _ => Ok(FALSE),
    }
}

fn add<'a>(a: i64, b: i64) -> Result<Cell<'a>, Faults>
    ensures { answer_of result ≡ whole (a +ℤ b) }
{
    match a.checked_add(b) {
        Some(sum) => Ok(Cell::Int(sum)),
        None => Err(Faults::OVERFLOW),
    }
}

fn subtract<'a>(a: i64, b: i64) -> Result<Cell<'a>, Faults>
    ensures { answer_of result ≡ whole (a -ℤ b) }
{
    match a.checked_sub(b) {
        Some(difference) => Ok(Cell::Int(difference)),
        None => Err(Faults::OVERFLOW),
    }
}

fn multiply<'a>(a: i64, b: i64) -> Result<Cell<'a>, Faults>
    ensures { answer_of result ≡ whole (a *ℤ b) }
{
    match a.checked_mul(b) {
        Some(product) => Ok(Cell::Int(product)),
        None => Err(Faults::OVERFLOW),
    }
}

fn divide<'a>(a: i64, b: i64) -> Result<Cell<'a>, Faults>
    ensures { answer_of result ≡ quotient a b }
{
    if b == 0 {
        return Err(Faults::DIVISION);
    }
    match a.checked_div(b) {
        Some(quotient) => Ok(Cell::Int(quotient)),
        None => Err(Faults::OVERFLOW),
    }
}

fn remainder<'a>(a: i64, b: i64) -> Result<Cell<'a>, Faults>
    ensures { answer_of result ≡ remainder a b }
{
    if b == 0 {
        return Err(Faults::DIVISION);
    }
    if b == -1 {
        return Ok(Cell::Int(0));
    }
    Ok(Cell::Int(a % b))
}
