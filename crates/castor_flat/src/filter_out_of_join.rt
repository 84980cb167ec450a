//! The rule `filter-out-of-join`: part of the condition of a join becomes a filter over it.

ghost use Rattle.castor_val.specs.Gives.{Gives};
ghost use Rattle.castor_alg.specs.declared.rule_error.RuleError.TheVariants as error;
ghost use Rattle.castor_flat.specs.FilterOutOfJoin.{filter_out_of_join};

use crate::forms::{join_of, sides_of};
use crate::making::{filter_over, given, join_over};
use castor_alg::{Rel, RuleError, copy, copy_expr, is_total_expr};
use std::alloc::Global;

/// `join(c and p, r, s)` becomes `filter(p, join(c, r, s))`. `NotTotal` comes where `p` isn't total. Linear
/// in the relation.
pub fn filter_out_of_join(alloc: Global, query: &Rel) -> Result<Rel, RuleError>
    ensures { Gives (λ r. r) error.Memory (filter_out_of_join query.now) result }
{
    let Some((all, left, right)) = join_of(query) else {
        return Err(RuleError::Shape);
    };
    let Some((joining, condition)) = sides_of(all) else {
        return Err(RuleError::Shape);
    };
    if !is_total_expr(condition) {
        return Err(RuleError::NotTotal);
    }
    let joining = copy_expr(alloc, joining);
    let joined = join_over(alloc, joining, copy(alloc, left), copy(alloc, right));
    given(filter_over(alloc, copy_expr(alloc, condition), joined))
}
