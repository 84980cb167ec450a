//! The number of nodes of a tree and its depth.

ghost use Rattle.std.specs.Prelude.{◌≡◌, ◌+◌, min, map, sum};
ghost use Rattle.castor_val.specs.Limits.{most_count};
ghost use Rattle.castor_alg.specs.Sizes.{all_expr_nodes, bound_depth, bound_nodes, deepest, deepest_expr, depth, expr_depth, expr_nodes, nodes};

use crate::expr::Expr;
use crate::rel::{Bound, Rel};

/// The number of nodes of an expression, and 2^64 - 1 where there are more. Linear in the tree.
pub fn expr_nodes(e: &Expr) -> u64
    ensures { result ≡ min (expr_nodes e.now) most_count }
{
    match e {
        Expr::Col(_) => 1,
        Expr::Scope(_, _) => 1,
        Expr::Param(_) => 1,
        Expr::Lit(_) => 1,
        Expr::Bin(_, a, b) => node_over(&[expr_nodes(a.get()), expr_nodes(b.get())]),
        Expr::Not(a) => node_over(&[expr_nodes(a.get())]),
        Expr::If(condition, a, b) => node_over(&[
            expr_nodes(condition.get()),
            expr_nodes(a.get()),
            expr_nodes(b.get()),
        ]),
    }
}

/// The number of relation and expression nodes of a relation, and 2^64 - 1 where there are more.
/// Linear in the tree.
#[cycle(nodes)]
pub fn nodes(query: &Rel) -> u64
    ensures { result ≡ min (nodes query.now) most_count }
{
    match query {
        Rel::Table(_) => 1,
        Rel::Scalar(e) => node_over(&[expr_nodes(e)]),
        Rel::Cross(rs) => node_over(&[nodes_of_all(rs.as_slice())]),
        Rel::Concat(rs) => node_over(&[nodes_of_all(rs.as_slice())]),
        Rel::Select(es, r) => node_over(&[expr_nodes_of_all(es.as_slice()), nodes(r.get())]),
        Rel::Filter(e, r) => node_over(&[expr_nodes(e), nodes(r.get())]),
        Rel::Join(e, r, s) => node_over(&[expr_nodes(e), nodes(r.get()), nodes(s.get())]),
        Rel::DepJoin(_, r, s) => node_over(&[nodes(r.get()), nodes(s.get())]),
        Rel::Group(_, _, r) => node_over(&[nodes(r.get())]),
        Rel::Order(_, r) => node_over(&[nodes(r.get())]),
        Rel::Dedup(r) => node_over(&[nodes(r.get())]),
        Rel::List(_, r, s) => node_over(&[nodes(r.get()), nodes(s.get())]),
        Rel::Hash(_, r, s, es) => node_over(&[
            nodes(r.get()),
            nodes(s.get()),
            expr_nodes_of_all(es.as_slice()),
        ]),
        Rel::Ord(_, r, s, lo, hi) => node_over(&[
            nodes(r.get()),
            nodes(s.get()),
            nodes_of_bound(lo),
            nodes_of_bound(hi),
        ]),
    }
}

/// The depth of an expression, which is 1 where it has no parts, and 2^64 - 1 where it is deeper.
/// Linear in the tree.
pub fn expr_depth(e: &Expr) -> u64
    ensures { result ≡ min (expr_depth e.now) most_count }
{
    match e {
        Expr::Col(_) => 1,
        Expr::Scope(_, _) => 1,
        Expr::Param(_) => 1,
        Expr::Lit(_) => 1,
        Expr::Bin(_, a, b) => level_over(&[expr_depth(a.get()), expr_depth(b.get())]),
        Expr::Not(a) => level_over(&[expr_depth(a.get())]),
        Expr::If(condition, a, b) => level_over(&[
            expr_depth(condition.get()),
            expr_depth(a.get()),
            expr_depth(b.get()),
        ]),
    }
}

/// The depth of a relation, counting relations and expressions and its root as 1, and 2^64 - 1 where
/// it is deeper. Linear in the tree.
#[cycle(depth)]
pub fn depth(query: &Rel) -> u64
    ensures { result ≡ min (depth query.now) most_count }
{
    match query {
        Rel::Table(_) => 1,
        Rel::Scalar(e) => level_over(&[expr_depth(e)]),
        Rel::Cross(rs) => level_over(&[depth_of_all(rs.as_slice())]),
        Rel::Concat(rs) => level_over(&[depth_of_all(rs.as_slice())]),
        Rel::Select(es, r) => level_over(&[expr_depth_of_all(es.as_slice()), depth(r.get())]),
        Rel::Filter(e, r) => level_over(&[expr_depth(e), depth(r.get())]),
        Rel::Join(e, r, s) => level_over(&[expr_depth(e), depth(r.get()), depth(s.get())]),
        Rel::DepJoin(_, r, s) => level_over(&[depth(r.get()), depth(s.get())]),
        Rel::Group(_, _, r) => level_over(&[depth(r.get())]),
        Rel::Order(_, r) => level_over(&[depth(r.get())]),
        Rel::Dedup(r) => level_over(&[depth(r.get())]),
        Rel::List(_, r, s) => level_over(&[depth(r.get()), depth(s.get())]),
        Rel::Hash(_, r, s, es) => level_over(&[
            depth(r.get()),
            depth(s.get()),
            expr_depth_of_all(es.as_slice()),
        ]),
        Rel::Ord(_, r, s, lo, hi) => level_over(&[
            depth(r.get()),
            depth(s.get()),
            depth_of_bound(lo),
            depth_of_bound(hi),
        ]),
    }
}

/// A node and all the nodes of its parts.
fn node_over(parts: &[u64]) -> u64
    ensures { result ≡ min (1 + sum parts.now) most_count }
{
    let mut count: u64 = 1;
    for part in parts {
        count = count.saturating_add(*part);
    }
    count
}

/// One level more than the deepest part.
fn level_over(parts: &[u64]) -> u64
    ensures { result ≡ min (1 + deepest parts.now) most_count }
{
    let mut most: u64 = 0;
    for part in parts {
        most = most.max(*part);
    }
    most.saturating_add(1)
}

#[cycle(nodes)]
fn nodes_of_all(queries: &[Rel]) -> u64
    ensures { result ≡ min (sum (map nodes queries.now)) most_count }
{
    let mut count: u64 = 0;
    for query in queries {
        count = count.saturating_add(nodes(query));
    }
    count
}

fn expr_nodes_of_all(es: &[Expr]) -> u64
    ensures { result ≡ min (all_expr_nodes es.now) most_count }
{
    let mut count: u64 = 0;
    for e in es {
        count = count.saturating_add(expr_nodes(e));
    }
    count
}

fn nodes_of_bound(bound: &Bound) -> u64
    ensures { result ≡ min (bound_nodes bound.now) most_count }
{
    match bound {
        Bound::Any => 0,
        Bound::Incl(e) => expr_nodes(e),
        Bound::Excl(e) => expr_nodes(e),
    }
}

#[cycle(depth)]
fn depth_of_all(queries: &[Rel]) -> u64
    ensures { result ≡ min (deepest (map depth queries.now)) most_count }
{
    let mut most: u64 = 0;
    for query in queries {
        most = most.max(depth(query));
    }
    most
}

fn expr_depth_of_all(es: &[Expr]) -> u64
    ensures { result ≡ min (deepest_expr es.now) most_count }
{
    let mut most: u64 = 0;
    for e in es {
        most = most.max(expr_depth(e));
    }
    most
}

fn depth_of_bound(bound: &Bound) -> u64
    ensures { result ≡ min (bound_depth bound.now) most_count }
{
    match bound {
        Bound::Any => 0,
        Bound::Incl(e) => expr_depth(e),
        Bound::Excl(e) => expr_depth(e),
    }
}
