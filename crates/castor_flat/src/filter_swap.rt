//! The rule `filter-swap`: two filters change places.

ghost use Rattle.castor_val.specs.Gives.{Gives};
ghost use Rattle.castor_alg.specs.declared.rule_error.RuleError.TheVariants as error;
ghost use Rattle.castor_flat.specs.FilterSwap.{filter_swap};

use crate::forms::filter_of;
use crate::making::{filter_over, given};
use castor_alg::{Rel, RuleError, copy, copy_expr, is_total_expr};
use std::alloc::Global;

/// `filter(a, filter(b, r))` becomes `filter(b, filter(a, r))`. `NotTotal` comes where `a` or `b` isn't
/// total. Linear in the relation.
pub fn filter_swap(alloc: Global, query: &Rel) -> Result<Rel, RuleError>
    ensures { Gives (λ r. r) error.Memory (filter_swap query.now) result }
{
    let Some((first, inner)) = filter_of(query) else {
        return Err(RuleError::Shape);
    };
    let Some((second, operand)) = filter_of(inner) else {
        return Err(RuleError::Shape);
    };
    if !(is_total_expr(first) && is_total_expr(second)) {
        return Err(RuleError::NotTotal);
    }
    let inner = filter_over(alloc, copy_expr(alloc, first), copy(alloc, operand));
    given(filter_over(alloc, copy_expr(alloc, second), inner))
}
