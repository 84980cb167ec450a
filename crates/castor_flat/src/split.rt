//! The rule `split`: a relation becomes the rows on which a condition is true, and then the others.

ghost use Rattle.std.specs.Prelude.{◌≡◌};
ghost use Rattle.castor_val.specs.Gives.{Gives};
ghost use Rattle.castor_val.specs.declared.value.Ty.TheVariants.{Bool as Truth};
ghost use Rattle.castor_alg.specs.Typing.{expr_type_of, is_of};
ghost use Rattle.castor_alg.specs.declared.rule_error.RuleError.TheVariants as error;
ghost use Rattle.castor_flat.specs.Making.{Makes};
ghost use Rattle.castor_flat.specs.Split.{is_condition, is_of_row_alone, split};

use crate::making::{concat_over, filter_over, given, negation, pair};
use castor_alg::expr_typing::is_of;
use castor_alg::{
    Context, Expr, Rel, RuleError, TypeError, copy, copy_expr, expr_type, is_total_expr, type_of,
};
use castor_val::{Memory, Ty};
use std::alloc::Global;

/// `r` becomes `concat(filter(p, r), filter(not p, r))`. `BadArgument` comes where `p` reads a scope or a
/// parameter, or isn't a bool over the columns of `r`; `NotTotal` where `p` isn't total. Linear in the
/// relation times the number of its columns.
pub fn split(alloc: Global, query: &Rel, p: &Expr, types: &Context) -> Result<Rel, RuleError>
    ensures { Gives (λ r. r) error.Memory (split types.now p.now query.now) result }
{
    if !is_of_row_alone(p) {
        return Err(RuleError::BadArgument);
    }
    if !is_condition(alloc, query, p, types)? {
        return Err(RuleError::BadArgument);
    }
    if !is_total_expr(p) {
        return Err(RuleError::NotTotal);
    }
    let kept = filter_over(alloc, copy_expr(alloc, p), copy(alloc, query));
    let negated = negation(alloc, copy_expr(alloc, p));
    let others = filter_over(alloc, negated, copy(alloc, query));
    given(concat_over(pair(alloc, kept, others)))
}

/// Whether an expression reads neither a scope nor a parameter. Linear in the tree.
fn is_of_row_alone(e: &Expr) -> bool
    ensures { result ≡ is_of_row_alone e.now }
{
    match e {
        Expr::Col(_) => true,
        Expr::Scope(_, _) => false,
        Expr::Param(_) => false,
        Expr::Lit(_) => true,
        Expr::Bin(_, a, b) => is_of_row_alone(a.get()) && is_of_row_alone(b.get()),
        Expr::Not(a) => is_of_row_alone(a.get()),
        Expr::If(condition, a, b) => is_of_row_alone(condition.get())
            && is_of_row_alone(a.get())
            && is_of_row_alone(b.get()),
    }
}

/// Whether an expression is a bool over the columns of a relation.
#[tactic(auto, using(crate::proofs::SplitLaws::found_condition, crate::proofs::SplitLaws::found_none))]
fn is_condition(alloc: Global, query: &Rel, p: &Expr, types: &Context) -> Result<bool, Memory>
    ensures { Makes (is_condition types.now p.now query.now) result }
{
    match type_of(alloc, query, types) {
        Ok(columns) => Ok(is_bool(p, &columns, types)),
        Err(TypeError::Ill) => Ok(false),
        Err(TypeError::Memory) => Err(Memory),
    }
}

fn is_bool(p: &Expr, columns: &[Ty], types: &Context) -> bool
    ensures { result ≡ is_of Truth (expr_type_of p.now columns.now types.now) }
{
    is_of(Ty::Bool, expr_type(p, columns, types))
}
