//! What expressions give.

use crate::build::{MadeExpr, bin, choice, col, int, not, param, scope, text, truth};
use castor_alg::{Env, Expr, Op, value};
use castor_val::{Cell, Faults};
use std::alloc::Global;
use std::process::Abort;

const BOTH: Faults = Faults {
    division: true,
    overflow: true,
    norows: false,
};

fn gives(rt: &impl Abort, e: MadeExpr, due: Cell) {
    is_answered(rt, e, Ok(due));
}

fn faults(rt: &impl Abort, e: MadeExpr, due: Faults) {
    is_answered(rt, e, Err(due));
}

fn is_answered(rt: &impl Abort, e: MadeExpr, due: Result<Cell, Faults>) {
    match e {
        Ok(e) => match answer(&e) {
            Ok(cell) => assert!(rt; due == Ok(cell), "{cell:?}"),
            Err(faults) => assert!(rt; due == Err(faults), "{faults:?}"),
        },
        Err(_) => assert!(rt; false, "no memory"),
    }
}

// The answer over the row `7, true`, under scope 2 with the row `true`, scope 1 with the row `5` within
// one with the row `9`, and the parameters `3, 8`.
fn answer<'a>(e: &'a Expr) -> Result<Cell<'a>, Faults> {
    let outer: [Cell<'a>; 1] = [Cell::Int(9)];
    let inner: [Cell<'a>; 1] = [Cell::Int(5)];
    let other: [Cell<'a>; 1] = [Cell::Bool(true)];
    let row: [Cell<'a>; 2] = [Cell::Int(7), Cell::Bool(true)];
    let params: [Cell<'a>; 2] = [Cell::Int(3), Cell::Int(8)];
    let empty = Env::Empty;
    let first = Env::Bind(1, &outer, &empty);
    let second = Env::Bind(1, &inner, &first);
    value(e, &row, &Env::Bind(2, &other, &second), &params)
}

// 1 / 0
fn divided(alloc: Global) -> MadeExpr {
    bin(alloc, int(1), Op::Div, int(0))
}

// 1 / 0 = 1
fn divided_test(alloc: Global) -> MadeExpr {
    bin(alloc, divided(alloc), Op::Eq, int(1))
}

// 9223372036854775807 + 1
fn overflowed(alloc: Global) -> MadeExpr {
    bin(alloc, int(i64::MAX), Op::Add, int(1))
}

#[test]
fn computes_ints(rt: HostRuntime) {
    let a = rt.alloc();
    gives(&rt, bin(a, int(7), Op::Add, int(2)), Cell::Int(9));
    gives(&rt, bin(a, int(7), Op::Sub, int(9)), Cell::Int(-2));
    gives(&rt, bin(a, int(7), Op::Mul, int(-2)), Cell::Int(-14));
    gives(&rt, bin(a, int(7), Op::Div, int(-2)), Cell::Int(-3));
    gives(&rt, bin(a, int(-7), Op::Rem, int(2)), Cell::Int(-1));
    gives(&rt, bin(a, int(7), Op::Rem, int(-2)), Cell::Int(1));
    gives(&rt, bin(a, int(i64::MIN), Op::Rem, int(-1)), Cell::Int(0));
    faults(&rt, bin(a, int(7), Op::Div, int(0)), Faults::DIVISION);
    faults(&rt, bin(a, int(7), Op::Rem, int(0)), Faults::DIVISION);
    faults(
        &rt,
        bin(a, int(i64::MAX), Op::Add, int(1)),
        Faults::OVERFLOW,
    );
    faults(
        &rt,
        bin(a, int(i64::MIN), Op::Sub, int(1)),
        Faults::OVERFLOW,
    );
    faults(
        &rt,
        bin(a, int(i64::MIN), Op::Mul, int(-1)),
        Faults::OVERFLOW,
    );
    faults(
        &rt,
        bin(a, int(i64::MIN), Op::Div, int(-1)),
        Faults::OVERFLOW,
    );
}

#[test]
fn joins_the_faults_of_all_that_it_evaluates(rt: HostRuntime) {
    let a = rt.alloc();
    faults(&rt, bin(a, overflowed(a), Op::Mul, divided(a)), BOTH);
    faults(
        &rt,
        bin(a, truth(false), Op::And, divided_test(a)),
        Faults::DIVISION,
    );
    faults(
        &rt,
        bin(a, truth(true), Op::Or, divided_test(a)),
        Faults::DIVISION,
    );
    faults(&rt, not(a, divided_test(a)), Faults::DIVISION);
    gives(
        &rt,
        choice(a, truth(true), int(4), divided(a)),
        Cell::Int(4),
    );
    gives(
        &rt,
        choice(a, truth(false), divided(a), int(4)),
        Cell::Int(4),
    );
    faults(
        &rt,
        choice(a, divided_test(a), overflowed(a), int(4)),
        Faults::DIVISION,
    );
}

#[test]
fn compares_and_connects(rt: HostRuntime) {
    let a = rt.alloc();
    let (yes, no) = (Cell::Bool(true), Cell::Bool(false));
    gives(&rt, bin(a, text(a, "éa"), Op::Lt, text(a, "éb")), yes);
    gives(&rt, bin(a, text(a, "z"), Op::Lt, text(a, "é")), yes);
    gives(&rt, bin(a, text(a, "é"), Op::Ge, text(a, "éa")), no);
    gives(&rt, bin(a, int(-1), Op::Le, int(0)), yes);
    gives(&rt, bin(a, truth(true), Op::Gt, truth(false)), yes);
    gives(&rt, bin(a, int(4), Op::Eq, int(4)), yes);
    gives(&rt, bin(a, int(4), Op::Ne, int(4)), no);
    gives(&rt, bin(a, truth(false), Op::And, truth(true)), no);
    gives(&rt, bin(a, truth(false), Op::Or, truth(true)), yes);
    gives(&rt, not(a, truth(false)), yes);
}

#[test]
fn gives_false_for_what_is_missing_or_ill_typed(rt: HostRuntime) {
    let a = rt.alloc();
    let no = Cell::Bool(false);
    gives(&rt, col(0), Cell::Int(7));
    gives(&rt, col(2), no);
    gives(&rt, scope(1, 0), Cell::Int(5));
    gives(&rt, scope(2, 0), Cell::Bool(true));
    gives(&rt, scope(2, 1), no);
    gives(&rt, scope(3, 0), no);
    gives(&rt, param(1), Cell::Int(8));
    gives(&rt, param(2), no);
    gives(&rt, bin(a, int(1), Op::Eq, text(a, "1")), no);
    gives(&rt, bin(a, int(1), Op::Ne, text(a, "1")), no);
    gives(&rt, bin(a, int(1), Op::Lt, text(a, "1")), no);
    gives(&rt, bin(a, int(1), Op::Add, truth(true)), no);
    gives(&rt, bin(a, int(1), Op::Or, truth(true)), no);
    gives(&rt, not(a, text(a, "")), no);
    gives(&rt, choice(a, int(1), int(2), int(3)), no);
}
