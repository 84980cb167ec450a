//! The plain value of an expression.

use crate::given::{Given, Line, bound_column, column};
use castor_alg::{Bound, Expr, Op};
use castor_val::{Cell, Faults, Memory, compare};
use std::cmp::Ordering;

/// The value of an expression on a row, or its faults.
pub fn plain_value<'a>(
    e: &'a Expr,
    row: &[Cell<'a>],
    given: Given<'_, 'a>,
) -> Result<Cell<'a>, Faults> {
    match e {
        Expr::Col(at) => Ok(column(row, *at)),
        Expr::Scope(scope, at) => Ok(bound_column(given.scopes, *scope, *at)),
        Expr::Param(at) => Ok(column(given.params, *at)),
        Expr::Lit(value) => Ok(value.cell()),
        Expr::Bin(op, a, b) => {
            let a = plain_value(a.get(), row, given);
            let b = plain_value(b.get(), row, given);
            both_sides(*op, a, b)
        }
        Expr::Not(a) => match plain_value(a.get(), row, given)? {
            Cell::Bool(truth) => Ok(Cell::Bool(!truth)),
            _ => Ok(Cell::Bool(false)),
        },
        Expr::If(c, a, b) => match plain_value(c.get(), row, given)? {
            Cell::Bool(true) => plain_value(a.get(), row, given),
            Cell::Bool(false) => plain_value(b.get(), row, given),
            _ => Ok(Cell::Bool(false)),
        },
    }
}

fn both_sides<'a>(
    op: Op,
    a: Result<Cell<'a>, Faults>,
    b: Result<Cell<'a>, Faults>,
) -> Result<Cell<'a>, Faults> {
    match a {
        Ok(a) => match b {
            Ok(b) => apply(op, a, b),
            Err(faults) => Err(faults),
        },
        Err(faults) => match b {
            Ok(_) => Err(faults),
            Err(more) => Err(faults.union(more)),
        },
    }
}

fn apply<'a>(op: Op, a: Cell<'a>, b: Cell<'a>) -> Result<Cell<'a>, Faults> {
    match a {
        Cell::Int(x) => match b {
            Cell::Int(y) => on_ints(op, x, y),
            _ => Ok(Cell::Bool(false)),
        },
        Cell::Bool(x) => match b {
            Cell::Bool(y) => Ok(Cell::Bool(on_bools(op, x, y))),
            _ => Ok(Cell::Bool(false)),
        },
        Cell::Text(_) => match b {
            Cell::Text(_) => Ok(Cell::Bool(holds(op, compare(a, b)))),
            _ => Ok(Cell::Bool(false)),
        },
    }
}

// Whether a comparison holds of two values of this order; no other operator does.
fn holds(op: Op, order: Ordering) -> bool {
    match op {
        Op::Eq => order.is_eq(),
        Op::Ne => order.is_ne(),
        Op::Lt => order.is_lt(),
        Op::Le => order.is_le(),
        Op::Gt => order.is_gt(),
        Op::Ge => order.is_ge(),
        _ => false,
    }
}

fn on_bools(op: Op, x: bool, y: bool) -> bool {
    match op {
        Op::Or => x || y,
        Op::And => x && y,
        _ => holds(op, x.cmp(&y)),
    }
}

fn on_ints<'a>(op: Op, x: i64, y: i64) -> Result<Cell<'a>, Faults> {
    match op {
        Op::Add => whole(x.checked_add(y)),
        Op::Sub => whole(x.checked_sub(y)),
        Op::Mul => whole(x.checked_mul(y)),
        Op::Div => {
            if y == 0 {
                return Err(Faults::DIVISION);
            }
            whole(x.checked_div(y))
        }
        Op::Rem => {
            if y == 0 {
                return Err(Faults::DIVISION);
            }
            Ok(Cell::Int(x.wrapping_rem(y)))
        }
        _ => Ok(Cell::Bool(holds(op, x.cmp(&y)))),
    }
}

fn whole<'a>(number: Option<i64>) -> Result<Cell<'a>, Faults> {
    match number {
        Some(number) => Ok(Cell::Int(number)),
        None => Err(Faults::OVERFLOW),
    }
}

/// The values of expressions, or the faults of all of them.
pub fn plain_values<'a>(
    es: &'a [Expr],
    row: &[Cell<'a>],
    given: Given<'_, 'a>,
) -> Result<Result<Line<'a>, Faults>, Memory> {
    let mut values = Vec::new(given.alloc);
    let mut faults = Faults::NONE;
    for e in es {
        match plain_value(e, row, given) {
            Ok(cell) => values.push(cell)?,
            Err(more) => faults = faults.union(more),
        }
    }
    if faults.is_empty() {
        Ok(Ok(values))
    } else {
        Ok(Err(faults))
    }
}

/// The value of a bound, and whether that value is within the range.
#[derive(Clone, Copy)]
pub struct Limit<'a> {
    pub cell: Cell<'a>,
    pub is_within: bool,
}

/// The limit that a bound sets, if it sets one, or its faults.
pub fn plain_limit<'a>(
    bound: &'a Bound,
    given: Given<'_, 'a>,
) -> Result<Option<Limit<'a>>, Faults> {
    match bound {
        Bound::Any => Ok(None),
        Bound::Incl(e) => {
            let cell = plain_value(e, &[], given)?;
            Ok(Some(Limit {
                cell,
                is_within: true,
            }))
        }
        Bound::Excl(e) => {
            let cell = plain_value(e, &[], given)?;
            Ok(Some(Limit {
                cell,
                is_within: false,
            }))
        }
    }
}
