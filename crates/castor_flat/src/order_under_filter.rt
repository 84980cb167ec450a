//! The rule `order-under-filter`: rows are sorted before they are filtered.

ghost use Rattle.castor_val.specs.Gives.{Gives};
ghost use Rattle.castor_alg.specs.declared.rule_error.RuleError.TheVariants as error;
ghost use Rattle.castor_flat.specs.OrderUnderFilter.{order_under_filter};

use crate::forms::{filter_of, order_of};
use crate::making::{filter_over, given, order_over};
use castor_alg::{Rel, RuleError, copy, copy_expr};
use std::alloc::Global;

/// `orderby(ks, filter(p, r))` becomes `filter(p, orderby(ks, r))`. Linear in the relation.
pub fn order_under_filter(alloc: Global, query: &Rel) -> Result<Rel, RuleError>
    ensures { Gives (λ r. r) error.Memory (order_under_filter query.now) result }
{
    let Some((keys, inner)) = order_of(query) else {
        return Err(RuleError::Shape);
    };
    let Some((condition, operand)) = filter_of(inner) else {
        return Err(RuleError::Shape);
    };
    let sorted = order_over(alloc, keys, copy(alloc, operand));
    given(filter_over(alloc, copy_expr(alloc, condition), sorted))
}
