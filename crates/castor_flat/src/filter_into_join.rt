//! The rule `filter-into-join`: a filter over a join becomes part of its condition.

ghost use Rattle.castor_val.specs.Gives.{Gives};
ghost use Rattle.castor_alg.specs.declared.rule_error.RuleError.TheVariants as error;
ghost use Rattle.castor_flat.specs.FilterIntoJoin.{filter_into_join};

use crate::forms::{filter_of, join_of};
use crate::making::{conjunction, given, join_over};
use castor_alg::{Rel, RuleError, copy, copy_expr, is_total_expr};
use std::alloc::Global;

/// `filter(p, join(c, r, s))` becomes `join(c and p, r, s)`. `NotTotal` comes where `p` isn't total. Linear
/// in the relation.
pub fn filter_into_join(alloc: Global, query: &Rel) -> Result<Rel, RuleError>
    ensures { Gives (λ r. r) error.Memory (filter_into_join query.now) result }
{
    let Some((condition, inner)) = filter_of(query) else {
        return Err(RuleError::Shape);
    };
    let Some((joining, left, right)) = join_of(inner) else {
        return Err(RuleError::Shape);
    };
    if !is_total_expr(condition) {
        return Err(RuleError::NotTotal);
    }
    let all = conjunction(
        alloc,
        copy_expr(alloc, joining),
        copy_expr(alloc, condition),
    );
    given(join_over(alloc, all, copy(alloc, left), copy(alloc, right)))
}
