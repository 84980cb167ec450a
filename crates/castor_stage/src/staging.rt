//! The walk that finds what is computed too early or too late.

ghost use Rattle.std.specs.Prelude.{◌≡◌, OnOk, map};
ghost use Rattle.castor_stage.specs.Binders.{phases_of};
ghost use Rattle.castor_stage.specs.Holds.{IsKnownAtBuild};
ghost use Rattle.castor_alg.specs.Stages.{bind_phase, bound_stage, expr_stage, exprs_stage, in_turn, scope_in};
ghost use Rattle.castor_alg.specs.Stages.{stage as stage_of};
ghost use Rattle.castor_alg.specs.Stages.{stage_under};

use crate::binders::Binders;
use castor_alg::{Bound, Expr, Phase, Rel, StageError};

/// Whether each part of a query stands in its phase, or the first that doesn't: a relation comes before
/// its expressions, these before its operands, and each of them from left to right.
///
/// The query itself is in run position. The source of a `List`, `Hash` or `Ord` is in build position, and
/// so is all below it; every other operand has the position of its relation. The scope of a `DepJoin` in
/// run position is known at run, every other one at build; where a number is bound twice the innermost
/// binder counts. Expressions in build position and those of a `Scalar` are computed at build and may
/// read no parameter and only scopes that are known at build. All others are computed at run and may read
/// only scopes that are known at run. A table and a join may not stand in run position. Linear in the
/// tree, and for each expression that reads a scope in the scopes in force. Takes no memory.
pub fn stage(q: &Rel) -> Result<(), StageError>
    ensures first { result ≡ stage_of q.now }

    // What is held needs nothing that is known only when a question comes.
    ensures known { OnOk result (IsKnownAtBuild q.now) }
{
    walk(q, Phase::Run, &Binders::Outside)
}

#[cycle(walk)]
fn walk<'b>(q: &Rel, phase: Phase, scopes: &Binders<'b>) -> Result<(), StageError>
    ensures { result ≡ stage_under q.now phase (phases_of scopes.now) }
{
    match q {
        Rel::Table(_) => match phase {
            Phase::Build => Ok(()),
            Phase::Run => Err(StageError::TableAtRun),
        },
        Rel::Scalar(e) => walk_expr(e, Phase::Build, scopes),
        Rel::Cross(rs) => walk_all(rs.as_slice(), phase, scopes),
        Rel::Concat(rs) => walk_all(rs.as_slice(), phase, scopes),
        Rel::Select(es, r) => {
            walk_exprs(es.as_slice(), phase, scopes)?;
            walk(r.get(), phase, scopes)
        }
        Rel::Filter(e, r) => {
            walk_expr(e, phase, scopes)?;
            walk(r.get(), phase, scopes)
        }
        Rel::Join(e, r, s) => match phase {
            Phase::Build => {
                walk_expr(e, Phase::Build, scopes)?;
                walk(r.get(), Phase::Build, scopes)?;
                walk(s.get(), Phase::Build, scopes)
            }
            Phase::Run => Err(StageError::JoinAtRun),
        },
        Rel::DepJoin(k, r, s) => {
            walk(r.get(), phase, scopes)?;
            walk_body(s.get(), phase, *k, phase, &*scopes)
        }
        Rel::Group(_, _, r) => walk(r.get(), phase, scopes),
        Rel::Order(_, r) => walk(r.get(), phase, scopes),
        Rel::Dedup(r) => walk(r.get(), phase, scopes),
        Rel::List(k, r, s) => {
            walk(r.get(), Phase::Build, scopes)?;
            walk_body(s.get(), phase, *k, Phase::Build, &*scopes)
        }
        Rel::Hash(k, r, s, es) => {
            walk_exprs(es.as_slice(), phase, scopes)?;
            walk(r.get(), Phase::Build, scopes)?;
            walk_body(s.get(), phase, *k, Phase::Build, &*scopes)
        }
        Rel::Ord(k, r, s, lo, hi) => {
            walk_bound(lo, phase, scopes)?;
            walk_bound(hi, phase, scopes)?;
            walk(r.get(), Phase::Build, scopes)?;
            walk_body(s.get(), phase, *k, Phase::Build, &*scopes)
        }
    }
}

// The body of a binder, whose scope is known in a phase.
#[cycle(walk)]
fn walk_body<'b>(
    s: &Rel,
    phase: Phase,
    k: u32,
    known: Phase,
    scopes: &'b Binders<'b>,
) -> Result<(), StageError>
    ensures { result ≡ stage_under s.now phase (bind_phase (phases_of scopes.now) k known) }
{
    let inner = Binders::Bind(k, known, scopes);
    walk(s, phase, &inner)
}

#[cycle(walk)]
fn walk_all<'b>(rs: &[Rel], phase: Phase, scopes: &Binders<'b>) -> Result<(), StageError>
    ensures { result ≡ in_turn (map (λ r. stage_under r phase (phases_of scopes.now)) rs.now) }
{
    for r in rs {
        match walk(r, phase, scopes) {
            Ok(()) => {}
            Err(why) => return Err(why),
        }
    }
    Ok(())
}

fn walk_expr<'b>(e: &Expr, phase: Phase, scopes: &Binders<'b>) -> Result<(), StageError>
    ensures { result ≡ expr_stage e.now phase (phases_of scopes.now) }
{
    match e {
        Expr::Col(_) => Ok(()),
        Expr::Scope(k, _) => read_scope(phase, scopes.phase(*k)),
        Expr::Param(_) => match phase {
            Phase::Build => Err(StageError::ParamAtBuild),
            Phase::Run => Ok(()),
        },
        Expr::Lit(_) => Ok(()),
        Expr::Bin(_, a, b) => {
            walk_expr(a.get(), phase, scopes)?;
            walk_expr(b.get(), phase, scopes)
        }
        Expr::Not(a) => walk_expr(a.get(), phase, scopes),
        Expr::If(condition, a, b) => {
            walk_expr(condition.get(), phase, scopes)?;
            walk_expr(a.get(), phase, scopes)?;
            walk_expr(b.get(), phase, scopes)
        }
    }
}

// An expression of a phase reads a scope that is known in a phase, or isn't bound.
fn read_scope(phase: Phase, known: Option<Phase>) -> Result<(), StageError>
    ensures { result ≡ scope_in phase known }
{
    match (phase, known) {
        (Phase::Build, Some(Phase::Build)) => Ok(()),
        (Phase::Build, _) => Err(StageError::RunScopeAtBuild),
        (Phase::Run, Some(Phase::Run)) => Ok(()),
        (Phase::Run, _) => Err(StageError::BuildScopeAtRun),
    }
}

fn walk_exprs<'b>(es: &[Expr], phase: Phase, scopes: &Binders<'b>) -> Result<(), StageError>
    ensures { result ≡ exprs_stage es.now phase (phases_of scopes.now) }
{
    for e in es {
        match walk_expr(e, phase, scopes) {
            Ok(()) => {}
            Err(why) => return Err(why),
        }
    }
    Ok(())
}

fn walk_bound<'b>(bound: &Bound, phase: Phase, scopes: &Binders<'b>) -> Result<(), StageError>
    ensures { result ≡ bound_stage bound.now phase (phases_of scopes.now) }
{
    match bound {
        Bound::Any => Ok(()),
        Bound::Incl(e) => walk_expr(e, phase, scopes),
        Bound::Excl(e) => walk_expr(e, phase, scopes),
    }
}
