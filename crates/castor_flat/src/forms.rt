//! The forms that rules rewrite, taken apart.

ghost use Rattle.std.specs.Prelude.{◌≡◌, option_map};
ghost use Rattle.std.specs.Option.{option_copied};
ghost use Rattle.castor_flat.specs.Forms as spec;

use castor_alg::{Agg, Expr, Key, Op, Rel};

/// The sides of a conjunction.
pub fn sides_of(e: &Expr) -> Option<(&Expr, &Expr)>
    ensures { option_map (λ sides. (sides.0.now, sides.1.now)) result ≡ spec.sides_of e.now }
{
    match e {
        Expr::Bin(op, a, b) => match *op {
            Op::And => Some((a.get(), b.get())),
            _ => None,
        },
        _ => None,
    }
}

/// The condition and the operand of a filter.
pub fn filter_of(query: &Rel) -> Option<(&Expr, &Rel)>
    ensures { option_map (λ parts. (parts.0.now, parts.1.now)) result ≡ spec.filter_of query.now }
{
    match query {
        Rel::Filter(e, r) => Some((e, r.get())),
        _ => None,
    }
}

/// The items and the operand of a projection.
pub fn select_of(query: &Rel) -> Option<(&[Expr], &Rel)>
    ensures { option_map (λ parts. (parts.0.now, parts.1.now)) result ≡ spec.select_of query.now }
{
    match query {
        Rel::Select(es, r) => Some((es.as_slice(), r.get())),
        _ => None,
    }
}

/// The condition and the operands of a join.
pub fn join_of(query: &Rel) -> Option<(&Expr, &Rel, &Rel)>
    ensures { option_map (λ parts. (parts.0.now, parts.1.now, parts.2.now)) result ≡ spec.join_of query.now }
{
    match query {
        Rel::Join(e, r, s) => Some((e, r.get(), s.get())),
        _ => None,
    }
}

/// The operands of a concatenation.
pub fn concat_of(query: &Rel) -> Option<&[Rel]>
    ensures { option_copied result ≡ spec.concat_of query.now }
{
    match query {
        Rel::Concat(rs) => Some(rs.as_slice()),
        _ => None,
    }
}

/// The keys, the aggregates and the operand of groups.
pub fn group_of(query: &Rel) -> Option<(&[u32], &[Agg], &Rel)>
    ensures { option_map (λ parts. (parts.0.now, parts.1.now, parts.2.now)) result ≡ spec.group_of query.now }
{
    match query {
        Rel::Group(keys, aggs, r) => Some((keys.as_slice(), aggs.as_slice(), r.get())),
        _ => None,
    }
}

/// The keys and the operand of a sorted relation.
pub fn order_of(query: &Rel) -> Option<(&[Key], &Rel)>
    ensures { option_map (λ parts. (parts.0.now, parts.1.now)) result ≡ spec.order_of query.now }
{
    match query {
        Rel::Order(keys, r) => Some((keys.as_slice(), r.get())),
        _ => None,
    }
}

/// The operand of distinct rows.
pub fn dedup_of(query: &Rel) -> Option<&Rel>
    ensures { option_copied result ≡ spec.dedup_of query.now }
{
    match query {
        Rel::Dedup(r) => Some(r.get()),
        _ => None,
    }
}
