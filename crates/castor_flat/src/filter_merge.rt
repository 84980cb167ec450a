//! The rule `filter-merge`: two filters become one by both conditions.

ghost use Rattle.castor_val.specs.Gives.{Gives};
ghost use Rattle.castor_alg.specs.declared.rule_error.RuleError.TheVariants as error;
ghost use Rattle.castor_flat.specs.FilterMerge.{filter_merge};

use crate::forms::filter_of;
use crate::making::{conjunction, filter_over, given};
use castor_alg::{Rel, RuleError, copy, copy_expr, is_total_expr};
use std::alloc::Global;

/// `filter(a, filter(b, r))` becomes `filter(a and b, r)`. `NotTotal` comes where `a` isn't total. Linear
/// in the relation.
pub fn filter_merge(alloc: Global, query: &Rel) -> Result<Rel, RuleError>
    ensures { Gives (λ r. r) error.Memory (filter_merge query.now) result }
{
    let Some((first, inner)) = filter_of(query) else {
        return Err(RuleError::Shape);
    };
    let Some((second, operand)) = filter_of(inner) else {
        return Err(RuleError::Shape);
    };
    if !is_total_expr(first) {
        return Err(RuleError::NotTotal);
    }
    let all = conjunction(alloc, copy_expr(alloc, first), copy_expr(alloc, second));
    given(filter_over(alloc, all, copy(alloc, operand)))
}
