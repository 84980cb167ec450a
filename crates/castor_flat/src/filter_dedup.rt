//! The rule `filter-dedup`: a filter goes below the choice of distinct rows.

ghost use Rattle.castor_val.specs.Gives.{Gives};
ghost use Rattle.castor_alg.specs.declared.rule_error.RuleError.TheVariants as error;
ghost use Rattle.castor_flat.specs.FilterDedup.{filter_dedup};

use crate::forms::{dedup_of, filter_of};
use crate::making::{dedup_over, filter_over, given};
use castor_alg::{Rel, RuleError, copy, copy_expr};
use std::alloc::Global;

/// `filter(p, dedup(r))` becomes `dedup(filter(p, r))`. Linear in the relation.
pub fn filter_dedup(alloc: Global, query: &Rel) -> Result<Rel, RuleError>
    ensures { Gives (λ r. r) error.Memory (filter_dedup query.now) result }
{
    let Some((condition, inner)) = filter_of(query) else {
        return Err(RuleError::Shape);
    };
    let Some(operand) = dedup_of(inner) else {
        return Err(RuleError::Shape);
    };
    let filtered = filter_over(alloc, copy_expr(alloc, condition), copy(alloc, operand));
    given(dedup_over(alloc, filtered))
}
