//! Which relations wait for a question.

ghost use Rattle.std.specs.Prelude.{◌≡◌, false};
ghost use Rattle.std.specs.List.{list_any};
ghost use Rattle.castor_script.specs.Binders.{run_scopes_of};
ghost use Rattle.castor_script.specs.Settled.{bound_waits, expr_waits, is_layout, is_settled, waits, with_scope};

use crate::binders::Binders;
use castor_alg::{Bound, Expr, Rel};

/// Whether a relation in run position can be stored as it is: it is no layout, and has neither a parameter
/// nor a run scope that is free in it. Linear in the tree, and in the binders for each scope that is read.
pub fn is_settled(query: &Rel, binders: &Binders<'_>) -> bool
    ensures { result ≡ is_settled (run_scopes_of binders.now) query.now }
{
    !is_layout(query) && !waits(query, binders)
}

fn is_layout(query: &Rel) -> bool
    ensures { result ≡ is_layout query.now }
{
    match query {
        Rel::Table(_) => false,
        Rel::Scalar(_) => true,
        Rel::Cross(_) => true,
        Rel::Concat(_) => true,
        Rel::Select(_, _) => false,
        Rel::Filter(_, _) => false,
        Rel::Join(_, _, _) => false,
        Rel::DepJoin(_, _, _) => false,
        Rel::Group(_, _, _) => false,
        Rel::Order(_, _) => false,
        Rel::Dedup(_) => false,
        Rel::List(_, _, _) => true,
        Rel::Hash(_, _, _, _) => true,
        Rel::Ord(_, _, _, _, _) => true,
    }
}

#[cycle(waits)]
fn waits(query: &Rel, binders: &Binders<'_>) -> bool
    ensures { result ≡ waits query.now (run_scopes_of binders.now) }
{
    match query {
        Rel::Table(_) => false,
        Rel::Scalar(e) => expr_waits(e, binders),
        Rel::Cross(rs) => any_waits(rs.as_slice(), binders),
        Rel::Concat(rs) => any_waits(rs.as_slice(), binders),
        Rel::Select(es, r) => any_expr_waits(es.as_slice(), binders) || waits(r.get(), binders),
        Rel::Filter(e, r) => expr_waits(e, binders) || waits(r.get(), binders),
        Rel::Join(e, r, s) => {
            expr_waits(e, binders) || waits(r.get(), binders) || waits(s.get(), binders)
        }
        Rel::DepJoin(scope, r, s) => {
            waits(r.get(), binders) || body_waits(*scope, s.get(), &*binders)
        }
        Rel::Group(_, _, r) => waits(r.get(), binders),
        Rel::Order(_, r) => waits(r.get(), binders),
        Rel::Dedup(r) => waits(r.get(), binders),
        Rel::List(scope, r, s) => {
            waits(r.get(), binders) || body_waits(*scope, s.get(), &*binders)
        }
        Rel::Hash(scope, r, s, es) => {
            any_expr_waits(es.as_slice(), binders)
                || waits(r.get(), binders)
                || body_waits(*scope, s.get(), &*binders)
        }
        Rel::Ord(scope, r, s, lo, hi) => {
            bound_waits(lo, binders)
                || bound_waits(hi, binders)
                || waits(r.get(), binders)
                || body_waits(*scope, s.get(), &*binders)
        }
    }
}

/// Whether the body of a binder waits. The binder's scope isn't free in there.
#[cycle(waits)]
fn body_waits<'b>(scope: u32, body: &Rel, binders: &'b Binders<'b>) -> bool
    ensures { result ≡ waits body.now (with_scope false (run_scopes_of binders.now) scope) }
{
    waits(body, &Binders::Build(scope, binders))
}

#[cycle(waits)]
fn any_waits(queries: &[Rel], binders: &Binders<'_>) -> bool
    ensures { result ≡ list_any (λ r. waits r (run_scopes_of binders.now)) queries.now }
{
    for query in queries {
        if waits(query, binders) {
            return true;
        }
    }
    false
}

/// Whether the expression has a parameter or reads a run scope.
fn expr_waits(e: &Expr, binders: &Binders<'_>) -> bool
    ensures { result ≡ expr_waits e.now (run_scopes_of binders.now) }
{
    match e {
        Expr::Col(_) => false,
        Expr::Scope(scope, _) => binders.is_run(*scope),
        Expr::Param(_) => true,
        Expr::Lit(_) => false,
        Expr::Bin(_, a, b) => expr_waits(a.get(), binders) || expr_waits(b.get(), binders),
        Expr::Not(a) => expr_waits(a.get(), binders),
        Expr::If(condition, a, b) => {
            expr_waits(condition.get(), binders)
                || expr_waits(a.get(), binders)
                || expr_waits(b.get(), binders)
        }
    }
}

fn any_expr_waits(es: &[Expr], binders: &Binders<'_>) -> bool
    ensures { result ≡ list_any (λ e. expr_waits e (run_scopes_of binders.now)) es.now }
{
    for e in es {
        if expr_waits(e, binders) {
            return true;
        }
    }
    false
}

fn bound_waits(bound: &Bound, binders: &Binders<'_>) -> bool
    ensures { result ≡ bound_waits bound.now (run_scopes_of binders.now) }
{
    match bound {
        Bound::Any => false,
        Bound::Incl(e) => expr_waits(e, binders),
        Bound::Excl(e) => expr_waits(e, binders),
    }
}
