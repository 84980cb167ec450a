//! The rule `filter-split`: a filter by both conditions becomes two filters.

ghost use Rattle.castor_val.specs.Gives.{Gives};
ghost use Rattle.castor_alg.specs.declared.rule_error.RuleError.TheVariants as error;
ghost use Rattle.castor_flat.specs.FilterSplit.{filter_split};

use crate::forms::{filter_of, sides_of};
use crate::making::{filter_over, given};
use castor_alg::{Rel, RuleError, copy, copy_expr, is_total_expr};
use std::alloc::Global;

/// `filter(a and b, r)` becomes `filter(a, filter(b, r))`. `NotTotal` comes where `a` isn't total. Linear
/// in the relation.
pub fn filter_split(alloc: Global, query: &Rel) -> Result<Rel, RuleError>
    ensures { Gives (λ r. r) error.Memory (filter_split query.now) result }
{
    let Some((condition, operand)) = filter_of(query) else {
        return Err(RuleError::Shape);
    };
    let Some((first, second)) = sides_of(condition) else {
        return Err(RuleError::Shape);
    };
    if !is_total_expr(first) {
        return Err(RuleError::NotTotal);
    }
    let inner = filter_over(alloc, copy_expr(alloc, second), copy(alloc, operand));
    given(filter_over(alloc, copy_expr(alloc, first), inner))
}
