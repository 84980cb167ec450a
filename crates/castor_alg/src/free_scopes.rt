//! The scopes that expressions and relations read from outside.

ghost use Rattle.std.specs.Prelude.{◌≡◌};
ghost use Rattle.std.specs.List.{list_any};
ghost use Rattle.castor_alg.specs.FreeScopes.{bound_reads, is_free, reads};

use crate::expr::Expr;
use crate::rel::{Bound, Rel};

/// Whether the expression reads the scope. Linear in the tree.
pub fn is_read(e: &Expr, scope: u32) -> bool
    ensures { result ≡ reads scope e.now }
{
    match e {
        Expr::Col(_) => false,
        Expr::Scope(read, _) => *read == scope,
        Expr::Param(_) => false,
        Expr::Lit(_) => false,
        Expr::Bin(_, a, b) => is_read(a.get(), scope) || is_read(b.get(), scope),
        Expr::Not(a) => is_read(a.get(), scope),
        Expr::If(condition, a, b) => is_read(condition.get(), scope)
            || is_read(a.get(), scope)
            || is_read(b.get(), scope),
    }
}

/// Whether the scope occurs outside every binder of that number. Linear in the tree.
#[cycle(is_free)]
pub fn is_free(query: &Rel, scope: u32) -> bool
    ensures { result ≡ is_free scope query.now }
{
    match query {
        Rel::Table(_) => false,
        Rel::Scalar(e) => is_read(e, scope),
        Rel::Cross(rs) => is_free_in_any(rs.as_slice(), scope),
        Rel::Concat(rs) => is_free_in_any(rs.as_slice(), scope),
        Rel::Select(es, r) => is_read_in_any(es.as_slice(), scope) || is_free(r.get(), scope),
        Rel::Filter(e, r) => is_read(e, scope) || is_free(r.get(), scope),
        Rel::Join(e, r, s) => is_read(e, scope)
            || is_free(r.get(), scope)
            || is_free(s.get(), scope),
        Rel::DepJoin(bound, r, s) => is_free(r.get(), scope)
            || (*bound != scope && is_free(s.get(), scope)),
        Rel::Group(_, _, r) => is_free(r.get(), scope),
        Rel::Order(_, r) => is_free(r.get(), scope),
        Rel::Dedup(r) => is_free(r.get(), scope),
        Rel::List(bound, r, s) => is_free(r.get(), scope)
            || (*bound != scope && is_free(s.get(), scope)),
        Rel::Hash(bound, r, s, es) => is_read_in_any(es.as_slice(), scope)
            || is_free(r.get(), scope)
            || (*bound != scope && is_free(s.get(), scope)),
        Rel::Ord(bound, r, s, lo, hi) => is_read_in_bound(lo, scope)
            || is_read_in_bound(hi, scope)
            || is_free(r.get(), scope)
            || (*bound != scope && is_free(s.get(), scope)),
    }
}

#[cycle(is_free)]
fn is_free_in_any(queries: &[Rel], scope: u32) -> bool
    ensures { result ≡ list_any (is_free scope) queries.now }
{
    for query in queries {
        if is_free(query, scope) {
            return true;
        }
    }
    false
}

/// Whether an expression reads the scope. Linear in the trees.
pub fn is_read_in_any(es: &[Expr], scope: u32) -> bool
    ensures { result ≡ list_any (reads scope) es.now }
{
    for e in es {
        if is_read(e, scope) {
            return true;
        }
    }
    false
}

fn is_read_in_bound(bound: &Bound, scope: u32) -> bool
    ensures { result ≡ bound_reads scope bound.now }
{
    match bound {
        Bound::Any => false,
        Bound::Incl(e) => is_read(e, scope),
        Bound::Excl(e) => is_read(e, scope),
    }
}
