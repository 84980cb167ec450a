//! Which expressions and relations can't fault.

ghost use Rattle.std.specs.Prelude.{◌≡◌, not};
ghost use Rattle.std.specs.List.{list_all};
ghost use Rattle.castor_alg.specs.Totality.{is_count, is_sum, is_total, is_total_bound, is_total_expr, is_total_group, is_total_op};

use crate::expr::{Expr, Op};
use crate::rel::{Agg, Bound, Rel};

/// Whether an expression contains no arithmetic, so that it can't fault. Linear in the tree.
pub fn is_total_expr(e: &Expr) -> bool
    ensures { result ≡ is_total_expr e.now }
{
    match e {
        Expr::Col(_) => true,
        Expr::Scope(_, _) => true,
        Expr::Param(_) => true,
        Expr::Lit(_) => true,
        Expr::Bin(op, a, b) => is_total_op(*op) && is_total_expr(a.get()) && is_total_expr(b.get()),
        Expr::Not(a) => is_total_expr(a.get()),
        Expr::If(condition, a, b) => is_total_expr(condition.get())
            && is_total_expr(a.get())
            && is_total_expr(b.get()),
    }
}

/// Whether all expressions are total, and each grouping has only counts, or has keys and no sum. Such
/// a relation can't fault. Linear in the tree.
#[cycle(is_total)]
pub fn is_total(query: &Rel) -> bool
    ensures { result ≡ is_total query.now }
{
    match query {
        Rel::Table(_) => true,
        Rel::Scalar(e) => is_total_expr(e),
        Rel::Cross(rs) => are_all_total(rs.as_slice()),
        Rel::Concat(rs) => are_all_total(rs.as_slice()),
        Rel::Select(es, r) => are_all_total_exprs(es.as_slice()) && is_total(r.get()),
        Rel::Filter(e, r) => is_total_expr(e) && is_total(r.get()),
        Rel::Join(e, r, s) => is_total_expr(e) && is_total(r.get()) && is_total(s.get()),
        Rel::DepJoin(_, r, s) => is_total(r.get()) && is_total(s.get()),
        Rel::Group(keys, aggs, r) => is_total_group(keys.as_slice(), aggs.as_slice())
            && is_total(r.get()),
        Rel::Order(_, r) => is_total(r.get()),
        Rel::Dedup(r) => is_total(r.get()),
        Rel::List(_, r, s) => is_total(r.get()) && is_total(s.get()),
        Rel::Hash(_, r, s, es) => are_all_total_exprs(es.as_slice())
            && is_total(r.get())
            && is_total(s.get()),
        Rel::Ord(_, r, s, lo, hi) => is_total_bound(lo)
            && is_total_bound(hi)
            && is_total(r.get())
            && is_total(s.get()),
    }
}

fn is_total_op(op: Op) -> bool
    ensures { result ≡ is_total_op op }
{
    !matches!(op, Op::Add | Op::Sub | Op::Mul | Op::Div | Op::Rem)
}

#[cycle(is_total)]
fn are_all_total(queries: &[Rel]) -> bool
    ensures { result ≡ list_all is_total queries.now }
{
    for query in queries {
        if !is_total(query) {
            return false;
        }
    }
    true
}

fn are_all_total_exprs(es: &[Expr]) -> bool
    ensures { result ≡ list_all is_total_expr es.now }
{
    for e in es {
        if !is_total_expr(e) {
            return false;
        }
    }
    true
}

fn is_total_bound(bound: &Bound) -> bool
    ensures { result ≡ is_total_bound bound.now }
{
    match bound {
        Bound::Any => true,
        Bound::Incl(e) => is_total_expr(e),
        Bound::Excl(e) => is_total_expr(e),
    }
}

fn is_total_group(keys: &[u32], aggs: &[Agg]) -> bool
    ensures { result ≡ is_total_group keys.now aggs.now }
{
    if keys.is_empty() {
        are_all_counts(aggs)
    } else {
        have_no_sum(aggs)
    }
}

fn are_all_counts(aggs: &[Agg]) -> bool
    ensures { result ≡ list_all is_count aggs.now }
{
    aggs.iter().all(|agg| is_count(*agg))
}

fn have_no_sum(aggs: &[Agg]) -> bool
    ensures { result ≡ list_all (λ agg. not (is_sum agg)) aggs.now }
{
    aggs.iter().all(|agg| !is_sum(*agg))
}

fn is_count(agg: Agg) -> bool
    ensures { result ≡ is_count agg }
{
    matches!(agg, Agg::Count)
}

fn is_sum(agg: Agg) -> bool
    ensures { result ≡ is_sum agg }
{
    matches!(agg, Agg::Sum(_))
}
