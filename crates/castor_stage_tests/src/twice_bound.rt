//! Scope numbers that are bound twice or not at all, as the checker gives none.

use crate::asked::Asked;
use castor_alg::{Expr, Rel, both, boxed};
use castor_stage::StageError;
use castor_val::{Memory, Value};
use sqlite_items::Items;
use std::alloc::Global;
use std::process::Abort;

type MadeRel = Result<Rel, Memory>;

fn one() -> MadeRel {
    Ok(Rel::Scalar(Expr::Lit(Value::Int(1))))
}

// A column of the scope 0, read at build.
fn read_by_scalar(column: u32) -> MadeRel {
    Ok(Rel::Scalar(Expr::Scope(0, column)))
}

// A column of the scope 0, read at run where the filter stands there.
fn read_by_filter(alloc: Global) -> MadeRel {
    let operand = boxed(alloc, one())?;
    Ok(Rel::Filter(Expr::Scope(0, 0), operand))
}

fn list(alloc: Global, source: MadeRel, body: MadeRel) -> MadeRel {
    let (source, body) = both(boxed(alloc, source), boxed(alloc, body))?;
    Ok(Rel::List(0, source, body))
}

fn dep_join(alloc: Global, source: MadeRel, body: MadeRel) -> MadeRel {
    let (source, body) = both(boxed(alloc, source), boxed(alloc, body))?;
    Ok(Rel::DepJoin(0, source, body))
}

fn crossed(alloc: Global, left: MadeRel, right: MadeRel) -> MadeRel {
    let (left, right) = both(left, right)?;
    let mut operands = Items::new(alloc);
    operands.push(left)?;
    operands.push(right)?;
    Ok(Rel::Cross(operands))
}

// A list of the table 0, whose scope is known at build.
fn listed(alloc: Global, body: MadeRel) -> MadeRel {
    list(alloc, Ok(Rel::Table(0)), body)
}

// A dependent join of a value, whose scope is known at run where it stands there.
fn joined(alloc: Global, body: MadeRel) -> MadeRel {
    dep_join(alloc, one(), body)
}

fn is_so(alloc: Global, query: Rel, asked: Asked) -> bool {
    asked.is_so(alloc, &query)
}

fn is_made_so(rt: &impl Abort, alloc: Global, query: MadeRel, asked: Asked) {
    match query {
        Ok(query) => assert!(rt; is_so(alloc, query, asked)),
        Err(why) => assert!(rt; false, "{why:?}"),
    }
}

#[test]
fn the_innermost_binder_of_a_number_counts(rt: HostRuntime) {
    let a = rt.alloc();
    let in_phase = Asked::Staged(Ok(()));
    is_made_so(&rt, a, joined(a, listed(a, read_by_scalar(0))), in_phase);
    is_made_so(&rt, a, listed(a, joined(a, read_by_filter(a))), in_phase);
    let run = Asked::Staged(Err(StageError::RunScopeAtBuild));
    is_made_so(&rt, a, listed(a, joined(a, read_by_scalar(0))), run);
    let build = Asked::Staged(Err(StageError::BuildScopeAtRun));
    is_made_so(&rt, a, joined(a, listed(a, read_by_filter(a))), build);
}

#[test]
fn a_scope_is_in_force_in_its_body_alone(rt: HostRuntime) {
    let a = rt.alloc();
    let at_build = Asked::Staged(Err(StageError::RunScopeAtBuild));
    is_made_so(&rt, a, read_by_scalar(0), at_build);
    is_made_so(
        &rt,
        a,
        crossed(a, listed(a, one()), read_by_scalar(0)),
        at_build,
    );
    is_made_so(&rt, a, list(a, read_by_scalar(0), one()), at_build);
    let at_run = Asked::Staged(Err(StageError::BuildScopeAtRun));
    is_made_so(&rt, a, read_by_filter(a), at_run);
    is_made_so(
        &rt,
        a,
        crossed(a, joined(a, one()), read_by_filter(a)),
        at_run,
    );
}

#[test]
fn the_innermost_row_of_a_number_is_held(rt: HostRuntime) {
    let a = rt.alloc();
    // For each step a list of its second number.
    let inner = list(a, read_by_scalar(1), read_by_scalar(0));
    let query = list(a, Ok(Rel::Table(4)), inner);
    is_made_so(&rt, a, query, Asked::Holds("[ [ 5] [ 7] [ 4]]"));
}
