//! A scope number that occurs nowhere.

ghost use Rattle.std.specs.Prelude.{◌≡◌, [], ◌∷◌};
ghost use Rattle.std.specs.List.{flat_map};
ghost use Rattle.castor_alg.specs.FreshScope.{bound_scopes, expr_scopes, fresh_scope, raised, raised_over, scope_numbers};

use crate::expr::Expr;
use crate::rel::{Bound, Rel};

/// One above all scope numbers that occur in the relation, bound or free, 0 where none does, and None
/// exactly where 4,294,967,295 occurs. Linear in the tree.
pub fn fresh(query: &Rel) -> Option<u32>
    ensures { result ≡ fresh_scope query.now }
{
    raise_over(Some(0), query)
}

/// The number, raised above all scope numbers of the relation.
#[cycle(raise_over)]
fn raise_over(above: Option<u32>, query: &Rel) -> Option<u32>
    ensures { result ≡ raised_over above (scope_numbers query.now) }
{
    match query {
        Rel::Table(_) => above,
        Rel::Scalar(e) => raise_over_expr(above, e),
        Rel::Cross(rs) => raise_over_all(above, rs.as_slice()),
        Rel::Concat(rs) => raise_over_all(above, rs.as_slice()),
        Rel::Select(es, r) => raise_over(raise_over_exprs(above, es.as_slice()), r.get()),
        Rel::Filter(e, r) => raise_over(raise_over_expr(above, e), r.get()),
        Rel::Join(e, r, s) => {
            raise_over(raise_over(raise_over_expr(above, e), r.get()), s.get())
        }
        Rel::DepJoin(scope, r, s) => raise_over(raise_over(raise(above, *scope), r.get()), s.get()),
        Rel::Group(_, _, r) => raise_over(above, r.get()),
        Rel::Order(_, r) => raise_over(above, r.get()),
        Rel::Dedup(r) => raise_over(above, r.get()),
        Rel::List(scope, r, s) => raise_over(raise_over(raise(above, *scope), r.get()), s.get()),
        Rel::Hash(scope, r, s, es) => {
            let above = raise_over(raise_over(raise(above, *scope), r.get()), s.get());
            raise_over_exprs(above, es.as_slice())
        }
        Rel::Ord(scope, r, s, lo, hi) => {
            let above = raise_over(raise_over(raise(above, *scope), r.get()), s.get());
            raise_over_bound(raise_over_bound(above, lo), hi)
        }
    }
}

fn raise_over_expr(above: Option<u32>, e: &Expr) -> Option<u32>
    ensures { result ≡ raised_over above (expr_scopes e.now) }
{
    match e {
        Expr::Col(_) => above,
        Expr::Scope(scope, _) => raise(above, *scope),
        Expr::Param(_) => above,
        Expr::Lit(_) => above,
        Expr::Bin(_, a, b) => raise_over_expr(raise_over_expr(above, a.get()), b.get()),
        Expr::Not(a) => raise_over_expr(above, a.get()),
        Expr::If(condition, a, b) => {
            let above = raise_over_expr(above, condition.get());
            raise_over_expr(raise_over_expr(above, a.get()), b.get())
        }
    }
}

fn raise_over_bound(above: Option<u32>, bound: &Bound) -> Option<u32>
    ensures { result ≡ raised_over above (bound_scopes bound.now) }
{
    match bound {
        Bound::Any => above,
        Bound::Incl(e) => raise_over_expr(above, e),
        Bound::Excl(e) => raise_over_expr(above, e),
    }
}

#[cycle(raise_over)]
fn raise_over_all(above: Option<u32>, queries: &[Rel]) -> Option<u32>
    ensures { result ≡ raised_over above (flat_map scope_numbers queries.now) }
{
    let mut highest = above;
    for query in queries {
        highest = raise_over(highest, query);
    }
    highest
}

fn raise_over_exprs(above: Option<u32>, es: &[Expr]) -> Option<u32>
    ensures { result ≡ raised_over above (flat_map expr_scopes es.now) }
{
    let mut highest = above;
    for e in es {
        highest = raise_over_expr(highest, e);
    }
    highest
}

/// The number, raised above another one, and None where that is the greatest number there is.
fn raise(above: Option<u32>, scope: u32) -> Option<u32>
    ensures { result ≡ raised above scope }
{
    let above = above?;
    Some(above.max(scope.checked_add(1)?))
}
