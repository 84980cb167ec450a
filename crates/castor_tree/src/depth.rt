//! Whether a tree is deep.

ghost use Rattle.std.specs.Prelude.{◌≡◌, ◌≤◌, ◌↔◌, map, IsTrue};
ghost use Rattle.castor_tree.specs.Sizes.{expr_depth, item_depth, bound_depth, depth, deepest};

use crate::tree::{Item, PBound, PExpr, PRel};

/// Whether an expression is at most this deep. It goes no deeper than that.
fn is_expr_within(expr: &PExpr, limit: u64) -> bool
    ensures { IsTrue result ↔ (expr_depth expr.now ≤ limit) }
{
    if limit == 0 {
        return false;
    }
    let limit = limit - 1;
    match expr {
        PExpr::Col(_) | PExpr::ScopeAt(_, _) | PExpr::Param(_) | PExpr::Lit(_, _) => true,
        PExpr::Bin(_, left, right) => {
            is_expr_within(left.get(), limit) && is_expr_within(right.get(), limit)
        }
        PExpr::Not(operand) => is_expr_within(operand.get(), limit),
        PExpr::If(condition, yes, no) => {
            is_expr_within(condition.get(), limit)
                && is_expr_within(yes.get(), limit)
                && is_expr_within(no.get(), limit)
        }
    }
}

fn are_exprs_within(exprs: &[PExpr], limit: u64) -> bool
    ensures { IsTrue result ↔ (deepest (map expr_depth exprs.now) ≤ limit) }
{
    for expr in exprs {
        if !is_expr_within(expr, limit) {
            return false;
        }
    }
    true
}

fn are_items_within(items: &[Item], limit: u64) -> bool
    ensures { IsTrue result ↔ (deepest (map item_depth items.now) ≤ limit) }
{
    for item in items {
        if !is_expr_within(&item.expr, limit) {
            return false;
        }
    }
    true
}

fn is_bound_within(bound: &PBound, limit: u64) -> bool
    ensures { IsTrue result ↔ (bound_depth bound.now ≤ limit) }
{
    match bound {
        PBound::Any => true,
        PBound::Incl(expr) => is_expr_within(expr, limit),
        PBound::Excl(expr) => is_expr_within(expr, limit),
    }
}

/// Whether a relation is at most this deep. It goes no deeper than that.
#[cycle(depth)]
pub fn is_within(rel: &PRel, limit: u64) -> bool
    ensures { IsTrue result ↔ (depth rel.now ≤ limit) }
{
    if limit == 0 {
        return false;
    }
    let limit = limit - 1;
    match rel {
        PRel::Table(_) => true,
        PRel::Scalar(item) => is_expr_within(&item.expr, limit),
        PRel::Cross(operands) => are_within(operands.as_slice(), limit),
        PRel::Concat(operands) => are_within(operands.as_slice(), limit),
        PRel::Select(items, operand) => {
            are_items_within(items.as_slice(), limit) && is_within(operand.get(), limit)
        }
        PRel::Filter(condition, operand) => {
            is_expr_within(condition, limit) && is_within(operand.get(), limit)
        }
        PRel::Join(condition, left, right) => {
            is_expr_within(condition, limit)
                && is_within(left.get(), limit)
                && is_within(right.get(), limit)
        }
        PRel::DepJoin(_, source, body) => {
            is_within(source.get(), limit) && is_within(body.get(), limit)
        }
        PRel::List(_, source, body) => {
            is_within(source.get(), limit) && is_within(body.get(), limit)
        }
        PRel::Hash(_, source, body, keys) => {
            is_within(source.get(), limit)
                && is_within(body.get(), limit)
                && are_exprs_within(keys.as_slice(), limit)
        }
        PRel::Ord(_, source, body, lower, upper) => {
            is_within(source.get(), limit)
                && is_within(body.get(), limit)
                && is_bound_within(lower, limit)
                && is_bound_within(upper, limit)
        }
        PRel::Group(_, _, operand) => is_within(operand.get(), limit),
        PRel::Order(_, operand) => is_within(operand.get(), limit),
        PRel::Dedup(operand) => is_within(operand.get(), limit),
    }
}

#[cycle(depth)]
fn are_within(rels: &[PRel], limit: u64) -> bool
    ensures { IsTrue result ↔ (deepest (map depth rels.now) ≤ limit) }
{
    for rel in rels {
        if !is_within(rel, limit) {
            return false;
        }
    }
    true
}
